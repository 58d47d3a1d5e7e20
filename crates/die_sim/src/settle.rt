//! Settling: each net gets the level that it must have, and of the gates those are evaluated that a change reaches.
ghost use Rattle.std.specs.Prelude.{◌≡◌, ℕ, ◌<◌, ◌≤◌, Bool, true, false, List, length, map, replicate, unwrap_or, All, count_by, slice_index};
ghost use Rattle.std.specs.Arc.{arc_value};
ghost use Rattle.tester_types.specs.declared.level.Level.{Level};
ghost use Rattle.tester_types.specs.declared.level.Level.TheVariants.{X};
ghost use Rattle.bench_net.specs.Wiring.{driver_at, gate_at};
ghost use Rattle.bench_net.specs.Circuit.{IsWhole};
ghost use Rattle.bench_net.specs.Gates.{level_at};
ghost use Rattle.die_sim.specs.Die.{own_level, Settled, IsNetBind, bind_at};
ghost use Rattle.die_sim.specs.Readers.{AreReaderPlaces};
ghost use Rattle.die_sim.specs.Pending.{is_pending, HasPlace, SameSeats, AreSeats, ActivatesEach, ActivatesReaders};
ghost use Rattle.die_sim.specs.Walk.{same_level, is_flip_flop, HaveLevels, HasLevel, HaveDriven, Carries};
ghost use Rattle.die_sim.specs.Settling.{circuit_of, drivers_of, IsWiring, AreSeated, AreNets, StaysAtRest, GatesWait, SourcesFit, PutsNet, RefreshesNets, VisitsGate};

use crate::image::Bind;
use crate::pending::Pending;
use crate::readers::Readers;
use crate::wiring::{Nets, Wiring};
use bench_net::Netlist;
use tester_types::{Drive, Level};

/// Whether two levels are one.
fn same_level(left: Level, right: Level) -> bool
    ensures { result ≡ same_level left right }
{
    left as u8 == right as u8
}

/// These gates are pending.
fn activate_each(pending: &mut Pending, nets: &[u32])
    requires { All (λ r. HasPlace pending.old r) nets.now }
    ensures { ActivatesEach nets.now pending.old pending.new }
{
    for net in nets {
        pending.set(*net);
    }
}

/// All gates are pending, where none is.
pub(crate) fn activate_all(net: &Netlist, pending: &mut Pending)
    requires whole { IsWhole net.now }
    requires seats { AreSeats net.now.order pending.old }
    requires clear { (n : ℕ) → is_pending pending.old n ≡ false }
    ensures seats { AreSeats net.now.order pending.new }
    ensures pending { (n : ℕ) → is_pending pending.new n ≡ gate_at net.now.net.drivers n }
{
    activate_each(pending, net.order());
}

/// The gates at these places are pending.
fn activate_places(pending: &mut Pending, places: &[u32])
    requires { All (λ p. p < length pending.old.bits) places.now }
    ensures activates { (order : List ℕ) → AreSeats order pending.old → All (λ p. p < length order) places.now
        → ActivatesEach (map (λ p. slice_index order p) places.now) pending.old pending.new }
    ensures seats { SameSeats pending.old pending.new }
{
    for place in places {
        pending.set_at(*place as usize);
    }
}

/// The gates that read a net are pending.
pub fn activate_readers(net: &Netlist, readers: &Readers, pending: &mut Pending, n: u32)
    requires whole { IsWhole net.now }
    requires readers { AreReaderPlaces net.now readers.now.starts.items readers.now.places.items }
    requires seats { AreSeats net.now.order pending.old }
    requires within { n < length net.now.net.names }
    ensures pending { ActivatesReaders net.now.net.drivers n pending.old pending.new }
    ensures seats { AreSeats net.now.order pending.new }
{
    activate_places(pending, readers.at(n))
}

/// Gives a net a level. Where that is another than before, the gates are pending that read it, and the flip-flops wait.
fn put_level(wiring: &Wiring, nets: &mut Nets, n: u32, level: Level)
    requires wiring { IsWiring wiring.now }
    requires seated { AreSeated wiring.now nets.old }
    requires within { n < length (circuit_of wiring.now).net.names }
    ensures puts { PutsNet wiring.now n level nets.old nets.new }
    ensures seated { AreSeated wiring.now nets.new }
    ensures rest { StaysAtRest wiring.now nets.old nets.new }
{
    if same_level(nets.levels[n as usize], level) {
        return;
    }
    nets.levels[n as usize] = level;
    activate_readers(&wiring.net, &wiring.readers, &mut nets.pending, n);
    nets.waiting.wake(n);
}

/// The level that an input or a flip-flop must have.
fn own_level(fixed: &[Option<Level>], held: &[Level], n: u32) -> Level
    requires fixed { n < length fixed.now }
    requires held { n < length held.now }
    ensures { result ≡ own_level fixed.now held.now n }
{
    fixed[n as usize].unwrap_or(held[n as usize])
}

/// Gives an input or a flip-flop its level.
fn refresh_net(wiring: &Wiring, held: &[Level], nets: &mut Nets, n: u32)
    requires wiring { IsWiring wiring.now }
    requires nets { AreNets wiring.now held.now nets.old }
    requires waits { GatesWait wiring.now held.now nets.old }
    requires within { n < length (circuit_of wiring.now).net.names }
    requires source { gate_at (drivers_of wiring.now) n ≡ false }
    ensures refreshes { RefreshesNets wiring.now held.now nets.old nets.new }
    ensures here { level_at nets.new.levels.items n ≡ own_level wiring.now.fixed.items held.now n }
    ensures nets { AreNets wiring.now held.now nets.new }
{
    let level = own_level(wiring.fixed.as_slice(), held, n);
    put_level(wiring, nets, n, level);
}

/// Gives these flip-flops their levels, and the gates are pending that read one whose level changed.
pub(crate) fn refresh_each(wiring: &Wiring, held: &[Level], nets: &mut Nets, list: &[u32])
    requires wiring { IsWiring wiring.now }
    requires nets { AreNets wiring.now held.now nets.old }
    requires waits { GatesWait wiring.now held.now nets.old }
    requires list { (k : ℕ) → k < length list.now
        → is_flip_flop (driver_at (drivers_of wiring.now) (slice_index list.now k)) ≡ true }
    ensures refreshes { RefreshesNets wiring.now held.now nets.old nets.new }
    ensures each { HaveLevels wiring.now.fixed.items held.now nets.new.levels.items list.now }
    ensures nets { AreNets wiring.now held.now nets.new }
{
    for n in list {
        refresh_net(wiring, held, nets, *n);
    }
}

/// Gives the input its level that a signal is bound to.
fn refresh_bound(wiring: &Wiring, held: &[Level], nets: &mut Nets, bind: Bind)
    requires wiring { IsWiring wiring.now }
    requires nets { AreNets wiring.now held.now nets.old }
    requires waits { GatesWait wiring.now held.now nets.old }
    requires bind { IsNetBind (drivers_of wiring.now) bind }
    ensures refreshes { RefreshesNets wiring.now held.now nets.old nets.new }
    ensures here { HasLevel wiring.now.fixed.items held.now nets.new.levels.items bind }
    ensures nets { AreNets wiring.now held.now nets.new }
{
    match bind {
        Bind::Free => {}
        Bind::Input(n) => refresh_net(wiring, held, nets, n),
        Bind::Output(_) => {}
    }
}

/// Gives the inputs that are driven their levels, and the gates are pending that read one whose level changed.
pub(crate) fn refresh_driven(
    wiring: &Wiring,
    held: &[Level],
    nets: &mut Nets,
    drives: &[(u16, Drive)],
)
    requires wiring { IsWiring wiring.now }
    requires nets { AreNets wiring.now held.now nets.old }
    requires waits { GatesWait wiring.now held.now nets.old }
    requires binds { (s : ℕ) → IsNetBind (drivers_of wiring.now) (bind_at (arc_value wiring.now.bind).nets s) }
    ensures refreshes { RefreshesNets wiring.now held.now nets.old nets.new }
    ensures driven { HaveDriven wiring.now.fixed.items held.now nets.new.levels.items
        (arc_value wiring.now.bind).nets drives.now }
    ensures nets { AreNets wiring.now held.now nets.new }
{
    for (signal, _) in drives {
        refresh_bound(wiring, held, nets, wiring.bind.bind_at(*signal));
    }
}

/// Evaluates the gate at a place.
fn visit(wiring: &Wiring, nets: &mut Nets, place: usize, g: u32)
    requires wiring { IsWiring wiring.now }
    requires seated { AreSeated wiring.now nets.old }
    requires within { place < length (circuit_of wiring.now).order }
    requires gate { slice_index (circuit_of wiring.now).order place ≡ g }
    requires active { is_pending nets.old.pending g ≡ true }
    ensures visits { (held : List Level) → VisitsGate wiring.now held g nets.old nets.new }
    ensures seated { AreSeated wiring.now nets.new }
    ensures rest { StaysAtRest wiring.now nets.old nets.new }
{
    let level = wiring.cells.level(place, nets.levels.as_slice());
    nets.pending.clear_at(place);
    put_level(wiring, nets, g, level);
}

/// Evaluates the gates that are pending, and those that change on the way, each once, in the netlist's order. Answers how
/// many evaluations that took.
pub(crate) fn walk(wiring: &Wiring, held: &[Level], nets: &mut Nets) -> usize
    requires wiring { IsWiring wiring.now }
    requires nets { AreNets wiring.now held.now nets.old }
    requires waits { GatesWait wiring.now held.now nets.old }
    requires sources { SourcesFit wiring.now held.now nets.old }
    ensures settled { Settled (drivers_of wiring.now) wiring.now.fixed.items held.now nets.new.levels.items }
    ensures kept { (n : ℕ) → gate_at (drivers_of wiring.now) n ≡ false
        → level_at nets.new.levels.items n ≡ level_at nets.old.levels.items n }
    ensures nets { AreNets wiring.now held.now nets.new }
    ensures clear { (n : ℕ) → is_pending nets.new.pending n ≡ false }
    ensures bound { (set : ℕ → Bool) → Carries (drivers_of wiring.now) nets.old.pending set
        → result ≤ count_by set (circuit_of wiring.now).order }
{
    let order = wiring.net.order();
    let mut count = 0;
    let mut place = nets.pending.next(0);
    while place < order.len() {
        visit(wiring, nets, place, order[place]);
        count += 1;
        place = nets.pending.next(place + 1);
    }
    count
}

/// Settles all nets where inputs and flip-flops are unknown and each gate is pending.
pub(crate) fn settle_first(wiring: &Wiring, held: &[Level], nets: &mut Nets)
    requires wiring { IsWiring wiring.now }
    requires nets { AreNets wiring.now held.now nets.old }
    requires pending { (n : ℕ) → is_pending nets.old.pending n ≡ gate_at (drivers_of wiring.now) n }
    requires held { held.now ≡ replicate (length (circuit_of wiring.now).net.names) X }
    requires levels { nets.old.levels.items ≡ map (λ f. unwrap_or f X) wiring.now.fixed.items }
    ensures settled { Settled (drivers_of wiring.now) wiring.now.fixed.items held.now nets.new.levels.items }
    ensures nets { AreNets wiring.now held.now nets.new }
    ensures clear { (n : ℕ) → is_pending nets.new.pending n ≡ false }
{
    walk(wiring, held, nets);
}
