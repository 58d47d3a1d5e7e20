//! What a moment does at the socket: it drives the die, and senses what the checker wants.

ghost use Rattle.std.specs.Prelude.{◌≡◌, ◌≢◌, ◌≤◌, [], length, OnOk, OnErr};
ghost use Rattle.tester_types.specs.Outside.{HasRisen};
ghost use Rattle.tester_types.specs.declared.cycle.Moment.{Moment};
ghost use Rattle.die_sim.specs.Socket.{CanDrive, Moves};
ghost use Rattle.cycle_run.specs.Tape.{call_at, with_calls};
ghost use Rattle.cycle_run.specs.Step.{AreLevels, WantsSome, IsCheckedBy, IsSettled};

use die_sim::{Contact, Socket};
use strobe_check::{Ahead, Checker};
use tester_types::{Drive, Level, Look};

/// Drives the die, if there is anything to drive. No drives leave the die as it is.
pub(crate) fn drive_die<K: Socket>(
    socket: &mut K,
    at: u128,
    drives: &[(u16, Drive)],
) -> Result<(), Contact>
    requires can { CanDrive (K.told socket.old).loaded drives.now }
    requires settled { IsSettled (K.told socket.old).loaded (K.told socket.old).state }
    ensures moves { OnOk result (Moves (K.told socket.old).loaded (K.told socket.old).state
        (K.told socket.new).state drives.now) }
    ensures some { OnErr result (drives.now ≢ []) }
    ensures tape { OnOk result ((K.told socket.new).tape
        ≡ with_calls (K.told socket.old).tape (call_at at drives.now)) }
    ensures kept { OnErr result ((K.told socket.new).tape ≡ (K.told socket.old).tape) }
    ensures loaded { (K.told socket.new).loaded ≡ (K.told socket.old).loaded }
    ensures count { (K.told socket.old).count ≤ (K.told socket.new).count }
    ensures cause { OnErr result (HasRisen (K.told socket.old).count (K.told socket.new).count) }
{
    if drives.is_empty() {
        return Ok(());
    }
    socket.drive(at, drives)
}

/// Senses each signal that the checker wants at a moment with these looks, in declared order.
pub(crate) fn sense_wanted<K: Socket>(
    socket: &mut K,
    checker: &Checker,
    looks: &[(u16, Look)],
    levels: &mut Vec<Level>,
) -> Result<(), Contact>
    requires wide { length checker.now.bound ≤ length levels.old.items }
    requires checked { IsCheckedBy (K.told socket.old).loaded checker.now }
    ensures levels { OnOk result ((moment : Moment) → moment.looks ≡ looks.now
        → AreLevels (K.told socket.old) checker.now moment (length levels.old.items) levels.new.items) }
    ensures kept { OnOk result ((K.told socket.new).state ≡ (K.told socket.old).state) }
    ensures some { OnErr result ((moment : Moment) → moment.looks ≡ looks.now → WantsSome checker.now moment) }
    ensures room { length levels.new.items ≡ length levels.old.items }
    ensures tape { (K.told socket.new).tape ≡ (K.told socket.old).tape }
    ensures loaded { (K.told socket.new).loaded ≡ (K.told socket.old).loaded }
    ensures count { (K.told socket.old).count ≤ (K.told socket.new).count }
    ensures cause { OnErr result (HasRisen (K.told socket.old).count (K.told socket.new).count) }
{
    let mut ahead = Ahead::of_looks(looks);
    while let Some(signal) = checker.next_wanted(&mut ahead) {
        levels[usize::from(signal)] = socket.sense(signal)?;
    }
    Ok(())
}
