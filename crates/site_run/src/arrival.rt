//! A try from its load up to its first batch.

ghost use Rattle.std.specs.Prelude.{◌≡◌, ◌≤◌, ℕ, None, IfOk, IfSome};
ghost use Rattle.tester_types.specs.Outside.{HasRisen};
ghost use Rattle.die_sim.specs.Socket.{Told, IsLoaded};
ghost use Rattle.site_meaning.specs.Part.{Part, stand_for};
ghost use Rattle.site_meaning.specs.Polls.{fresh_try, onward, unloaded, ends};
ghost use Rattle.site_run.specs.Station.{code_in, device_in, IsGround};
ghost use Rattle.site_run.specs.Seat.{running_of, IsBefore, IsArrival, ArrivesSo, load_contact, FailsToLoad, KeepsSo};

use crate::run::{Move, Run, onward};
use crate::station::Ground;
use cycle_run::{Bench, Standing};
use die_sim::{Socket, SocketFault};
use pattern_mem::at;
use tester_types::{NoMemory, Verdict};

/// How a try comes to its first batch.
#[derive(Drop)]
pub(crate) enum Arrival {
    /// It stands before it.
    Goes(Run),
    /// It has ended without one.
    Ends(Verdict),
}

/// A try of a die that is loaded, before the first executive.
fn fresh(ground: &Ground, keep: u16) -> Result<Run, NoMemory>
    requires set_up { IsGround ground.now }
    ensures fresh { IfOk result (λ run. (part : Part) (die number : ℕ) (told : Told)
        → (stand_for part die number).device ≡ device_in ground.now → IsLoaded ground.now.image.now told
        → running_of told run ≡ fresh_try part die number) }
    ensures before { IfOk result (λ run. (told : Told) → IsLoaded ground.now.image.now told
        → IsBefore (device_in ground.now) told run 0) }
    ensures time { IfOk result (λ run. run.at.time ≡ 0) }
    ensures keep { IfOk result (λ run. run.at.bench.checker.count.keep ≡ keep) }
{
    let code = ground.mem.code();
    let bench = Bench::new(ground.alloc, ground.image, code.signals(), keep)?;
    let cursor = at(ground.alloc, ground.mem, 0)?;
    Ok(Run {
        exec: 0,
        cursor,
        done: 0,
        batch: 0,
        at: Standing {
            number: 0,
            time: 0,
            bench,
        },
    })
}

/// Comes to the first executive that has a cycle, at a die that is loaded.
fn begin(ground: &Ground, keep: u16) -> Result<Arrival, NoMemory>
    requires set_up { IsGround ground.now }
    ensures polled { IfOk result (λ arrival. (part : Part) (die number : ℕ) (told : Told)
        → part.code ≡ code_in ground.now → (stand_for part die number).device ≡ device_in ground.now
        → IsLoaded ground.now.image.now told
        → IsArrival number told arrival (onward part number (fresh_try part die number) 0)) }
    ensures fits { IfOk result (λ arrival. (told : Told) → IsLoaded ground.now.image.now told
        → ArrivesSo (code_in ground.now) (device_in ground.now) told arrival) }
    ensures quiet { IfOk result (λ arrival. load_contact arrival ≡ None) }
    ensures keep { IfOk result (λ arrival. KeepsSo keep arrival) }
{
    let mut run = match fresh(ground, keep) {
        Ok(run) => run,
        Err(fault) => return Err(fault),
    };
    match onward(ground, &mut run, 0) {
        Ok(Move::More) => Ok(Arrival::Goes(run)),
        Ok(Move::Next) => Ok(Arrival::Goes(run)),
        Ok(Move::Ends(verdict)) => Ok(Arrival::Ends(verdict)),
        Err(fault) => Err(fault),
    }
}

/// Loads a die and comes to the first executive that has a cycle. A load that fails loses contact at the instant 0.
pub(crate) fn arrive<K: Socket>(
    ground: &Ground,
    keep: u16,
    socket: &mut K,
) -> Result<Arrival, NoMemory>
    requires set_up { IsGround ground.now }
    ensures polled { IfOk result (λ arrival. (part : Part) (die number : ℕ) → part.code ≡ code_in ground.now
        → (stand_for part die number).device ≡ device_in ground.now → load_contact arrival ≡ None
        → IsArrival number (K.told socket.new) arrival (onward part number (fresh_try part die number) 0)) }
    ensures keep { IfOk result (λ arrival. KeepsSo keep arrival) }
    ensures failed { IfOk result (λ arrival. FailsToLoad arrival) }
    ensures fits { IfOk result (λ arrival. ArrivesSo (code_in ground.now) (device_in ground.now)
        (K.told socket.new) arrival) }
    ensures cause { IfOk result (λ arrival. IfSome (load_contact arrival)
        (λ _. HasRisen (K.told socket.old).count (K.told socket.new).count)) }
    ensures tape { (K.told socket.new).tape ≡ (K.told socket.old).tape }
    ensures count { (K.told socket.old).count ≤ (K.told socket.new).count }
{
    match socket.load(ground.image) {
        Ok(()) => begin(ground, keep),
        Err(SocketFault::Contact) => Ok(Arrival::Ends(Verdict::Contact(0))),
        Err(SocketFault::NoMemory) => Err(NoMemory),
    }
}
