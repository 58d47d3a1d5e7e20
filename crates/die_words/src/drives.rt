//! What the drives of a moment do to the clock and to inputs. They are the same for all dies.
ghost use Rattle.std.specs.Prelude.{◌≡◌, ℕ, ◌<◌, List, length, slice_set};
ghost use Rattle.tester_types.specs.declared.level.Level.{Level};
ghost use Rattle.bench_net.specs.declared.gate.Driver.TheVariants.{Input};
ghost use Rattle.bench_net.specs.Circuit.{IsWhole};
ghost use Rattle.bench_net.specs.Wiring.{driver_at};
ghost use Rattle.die_sim.specs.Die.{bind_at, IsNetBind};
ghost use Rattle.die_sim.specs.Moment.{drive_level, clock_put, clock_after, put_at, put_all};
ghost use Rattle.die_sim.specs.Readers.{AreReaderPlaces};
ghost use Rattle.die_sim.specs.Walk.{is_off};
ghost use Rattle.die_words.specs.Lane.{IsLane};
ghost use Rattle.die_words.specs.Lanes.{AreOff};
ghost use Rattle.die_words.specs.Board.{FitNets};

use crate::nets::NetWords;
use crate::settling::put_word;
use crate::word::{forced, same_everywhere};
use bench_net::Netlist;
use die_sim::{Bind, Binding, Readers};
use tester_types::{Drive, Level};

/// The level of a drive.
fn drive_level(drive: Drive) -> Level
    ensures { result ≡ drive_level drive }
{
    match drive {
        Drive::Down => Level::Zero,
        Drive::Up => Level::One,
        Drive::Off => Level::Z,
        Drive::Unknown => Level::X,
    }
}

/// The clock's level after a drive.
fn clock_put(bind: &Binding, was: Level, signal: u16, drive: Drive) -> Level
    ensures { result ≡ clock_put bind.now.clock was (signal, drive) }
{
    if bind.is_clock(signal) {
        drive_level(drive)
    } else {
        was
    }
}

/// The clock's level after these drives.
pub(crate) fn clock_after(bind: &Binding, was: Level, drives: &[(u16, Drive)]) -> Level
    ensures { result ≡ clock_after bind.now.clock was drives.now }
{
    let mut level = was;
    for (signal, drive) in drives {
        level = clock_put(bind, level, *signal, *drive);
    }
    level
}

/// Whether it is driven off.
fn is_off(drive: Drive) -> bool
    ensures { result ≡ is_off (drive_level drive) }
{
    match drive {
        Drive::Down => false,
        Drive::Up => false,
        Drive::Off => true,
        Drive::Unknown => false,
    }
}

/// Drives an input to a level.
fn put_input(net: &Netlist, readers: &Readers, nets: &mut NetWords, n: u32, drive: Drive)
    requires whole { IsWhole net.now }
    requires readers { AreReaderPlaces net.now readers.now.starts.items readers.now.places.items }
    requires fit { FitNets net.now nets.old }
    requires within { n < length net.now.net.drivers }
    requires input { driver_at net.now.net.drivers n ≡ Input }
    ensures fit { FitNets net.now nets.new }
    ensures forces { nets.new.forces.items ≡ nets.old.forces.items }
    ensures lanes { (k : ℕ) (own : List Level) → k < 64 → IsLane nets.old.held.items k own
        → IsLane nets.new.held.items k (slice_set own n (drive_level drive)) }
    ensures offs { (own : List Level) → AreOff nets.old.offs.items own
        → AreOff nets.new.offs.items (slice_set own n (drive_level drive)) }
{
    let own = same_everywhere(drive_level(drive));
    let word = forced(own, nets.forces[n as usize]);
    nets.held[n as usize] = own;
    nets.offs[n as usize] = is_off(drive);
    put_word(net, readers, &mut nets.words, &mut nets.pending, n, word);
}

/// What inputs are driven to, after a drive.
fn put_at(net: &Netlist, readers: &Readers, nets: &mut NetWords, bind: Bind, drive: Drive)
    requires whole { IsWhole net.now }
    requires readers { AreReaderPlaces net.now readers.now.starts.items readers.now.places.items }
    requires fit { FitNets net.now nets.old }
    requires bind { IsNetBind net.now.net.drivers bind }
    ensures fit { FitNets net.now nets.new }
    ensures forces { nets.new.forces.items ≡ nets.old.forces.items }
    ensures lanes { (k : ℕ) (own : List Level) → k < 64 → IsLane nets.old.held.items k own
        → IsLane nets.new.held.items k (put_at bind drive own) }
    ensures offs { (own : List Level) → AreOff nets.old.offs.items own
        → AreOff nets.new.offs.items (put_at bind drive own) }
{
    match bind {
        Bind::Free => {}
        Bind::Input(n) => put_input(net, readers, nets, n, drive),
        Bind::Output(_) => {}
    }
}

/// What inputs are driven to, after these drives; the gates are pending that read one whose word changed.
pub(crate) fn put_all(
    net: &Netlist,
    readers: &Readers,
    bind: &Binding,
    drives: &[(u16, Drive)],
    nets: &mut NetWords,
)
    requires whole { IsWhole net.now }
    requires readers { AreReaderPlaces net.now readers.now.starts.items readers.now.places.items }
    requires fit { FitNets net.now nets.old }
    requires bound { (s : ℕ) → IsNetBind net.now.net.drivers (bind_at bind.now.nets s) }
    ensures fit { FitNets net.now nets.new }
    ensures forces { nets.new.forces.items ≡ nets.old.forces.items }
    ensures lanes { (k : ℕ) (own : List Level) → k < 64 → IsLane nets.old.held.items k own
        → IsLane nets.new.held.items k (put_all bind.now.nets own drives.now) }
    ensures offs { (own : List Level) → AreOff nets.old.offs.items own
        → AreOff nets.new.offs.items (put_all bind.now.nets own drives.now) }
{
    for (signal, drive) in drives {
        put_at(net, readers, nets, bind.bind_at(*signal), *drive);
    }
}
