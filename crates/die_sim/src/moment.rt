//! What a moment does to the clock, and to what inputs and flip-flops keep.
ghost use Rattle.std.specs.Prelude.{◌≡◌, ℕ, ◌<◌, ◌≤◌, length};
ghost use Rattle.bench_net.specs.Gates.{level_at};
ghost use Rattle.die_sim.specs.Die.{bind_at};
ghost use Rattle.bench_net.specs.Wiring.{IsWired};
ghost use Rattle.bench_net.specs.Circuit.{IsWhole};
ghost use Rattle.die_sim.specs.Walk.{MayCapture};
ghost use Rattle.die_sim.specs.Moment.{drive_level, edge, agreed, capture, captured, clock_put, clock_after, put_at, put_all, IsWithin, Captures};

use crate::gate::read;
use crate::image::{Bind, Binding};
use bench_net::{Driver, Netlist};
use tester_types::{Drive, Level};

/// What the clock's change means: an edge, perhaps one, or none.
#[derive(Clone, Copy, Debug, PartialEq, Eq)]
pub(crate) enum Edge {
    Takes,
    Doubts,
    Keeps,
}

/// The level of a drive.
pub(crate) fn drive_level(drive: Drive) -> Level
    ensures { result ≡ drive_level drive }
{
    match drive {
        Drive::Down => Level::Zero,
        Drive::Up => Level::One,
        Drive::Off => Level::Z,
        Drive::Unknown => Level::X,
    }
}

/// What the clock's change means.
pub(crate) fn clock_edge(old: Level, new: Level) -> Edge
    ensures { result ≡ edge old new }
{
    match old {
        Level::Zero => match new {
            Level::Zero => Edge::Keeps,
            Level::One => Edge::Takes,
            Level::X | Level::Z => Edge::Doubts,
        },
        Level::One => Edge::Keeps,
        Level::X | Level::Z => match new {
            Level::One => Edge::Doubts,
            Level::Zero | Level::X | Level::Z => Edge::Keeps,
        },
    }
}

/// A level that stays where the other equals it, else unknown.
fn agreed(own: Level, other: Level) -> Level
    ensures { result ≡ agreed own other }
{
    match own {
        Level::Zero => match other {
            Level::Zero => Level::Zero,
            Level::One => Level::X,
            Level::X => Level::X,
            Level::Z => Level::X,
        },
        Level::One => match other {
            Level::One => Level::One,
            Level::Zero => Level::X,
            Level::X => Level::X,
            Level::Z => Level::X,
        },
        Level::X => Level::X,
        Level::Z => Level::X,
    }
}

/// What a flip-flop keeps after an edge.
fn capture(edge: Edge, own: Level, at_pin: Level) -> Level
    ensures { result ≡ capture edge own at_pin }
{
    match edge {
        Edge::Takes => read(at_pin),
        Edge::Doubts => agreed(own, at_pin),
        Edge::Keeps => own,
    }
}

/// What is kept at a net after an edge.
fn captured(driver: &Driver, edge: Edge, own: Level, before: &[Level]) -> Level
    requires { IsWired (length before.now) driver.now }
    ensures { result ≡ captured driver.now edge own before.now }
{
    match driver {
        Driver::Input => own,
        Driver::Dff(pin) => capture(edge, own, before[*pin as usize]),
        Driver::Gate(_, _) => own,
    }
}

/// These flip-flops capture, from the levels before the moment.
pub(crate) fn capture_each(
    net: &Netlist,
    edge: Edge,
    nets: &[u32],
    before: &[Level],
    held: &mut Vec<Level>,
)
    requires whole { IsWhole net.now }
    requires before { length before.now ≡ length net.now.net.names }
    requires held { length held.old.items ≡ length net.now.net.names }
    requires nets { MayCapture net.now.net.drivers edge before.now held.old.items nets.now }
    ensures { Captures net.now.net.drivers edge before.now held.old.items held.new.items }
{
    for n in nets {
        let own = held[*n as usize];
        held[*n as usize] = captured(net.driver(*n), edge, own, before);
    }
}

/// The clock's level after a drive.
fn clock_put(bind: &Binding, was: Level, signal: u16, drive: Drive) -> Level
    ensures { result ≡ clock_put bind.now.clock was (signal, drive) }
{
    if bind.is_clock(signal) {
        drive_level(drive)
    } else {
        was
    }
}

/// The clock's level after these drives.
pub(crate) fn clock_after(bind: &Binding, was: Level, drives: &[(u16, Drive)]) -> Level
    ensures { result ≡ clock_after bind.now.clock was drives.now }
{
    let mut level = was;
    for (signal, drive) in drives {
        level = clock_put(bind, level, *signal, *drive);
    }
    level
}

/// What inputs are driven to, after a drive.
fn put_at(held: &mut Vec<Level>, bind: Bind, drive: Drive)
    requires { IsWithin (length held.old.items) bind }
    ensures { held.new.items ≡ put_at bind drive held.old.items }
{
    match bind {
        Bind::Free => {}
        Bind::Input(n) => held[n as usize] = drive_level(drive),
        Bind::Output(_) => {}
    }
}

/// What inputs are driven to, after these drives.
pub(crate) fn put_all(held: &mut Vec<Level>, bind: &Binding, drives: &[(u16, Drive)])
    requires { (s : ℕ) → IsWithin (length held.old.items) (bind_at bind.now.nets s) }
    ensures all { held.new.items ≡ put_all bind.now.nets held.old.items drives.now }
    ensures count { length held.new.items ≡ length held.old.items }
{
    for (signal, drive) in drives {
        put_at(held, bind.bind_at(*signal), *drive);
    }
}
