//! The clock's change: what flip-flops keep, and which gates that reaches.
ghost use Rattle.std.specs.Prelude.{◌≡◌, ℕ, ◌<◌, true, List, length, slice_index};
ghost use Rattle.tester_types.specs.declared.level.Level.{Level};
ghost use Rattle.bench_net.specs.Circuit.{IsWhole};
ghost use Rattle.bench_net.specs.Wiring.{driver_at};
ghost use Rattle.die_sim.specs.Moment.{edge};
ghost use Rattle.die_sim.specs.Readers.{AreReaderPlaces};
ghost use Rattle.die_sim.specs.Stepped.{captured_levels};
ghost use Rattle.die_sim.specs.Walk.{is_flip_flop};
ghost use Rattle.die_words.specs.Lane.{IsLane};
ghost use Rattle.die_words.specs.Fits.{GatesWait, RefreshesAll};
ghost use Rattle.die_words.specs.Board.{IsWiring, FitNets};

use crate::capture::{capture_each, keeps, rise_of};
use crate::nets::NetWords;
use crate::settling::put_word;
use crate::wiring::Wired;
use crate::word::{Word, forced};
use bench_net::Netlist;
use die_sim::{Pending, Readers};
use tester_types::Level;

/// Gives these flip-flops their words, and the gates are pending that read one whose word changed.
fn refresh_each(
    net: &Netlist,
    readers: &Readers,
    forces: &[Word],
    held: &[Word],
    words: &mut Vec<Word>,
    pending: &mut Pending,
    nets: &[u32],
)
    requires whole { IsWhole net.now }
    requires readers { AreReaderPlaces net.now readers.now.starts.items readers.now.places.items }
    requires forces { length forces.now ≡ length net.now.net.drivers }
    requires held { length held.now ≡ length net.now.net.drivers }
    requires words { length words.old.items ≡ length net.now.net.drivers }
    requires waits { GatesWait net.now forces.now words.old.items pending.old }
    requires flip_flops { (k : ℕ) → k < length nets.now
        → is_flip_flop (driver_at net.now.net.drivers (slice_index nets.now k)) ≡ true }
    ensures count { length words.new.items ≡ length words.old.items }
    ensures waits { GatesWait net.now forces.now words.new.items pending.new }
    ensures fit { RefreshesAll forces.now held.now words.old.items words.new.items nets.now }
{
    for n in nets {
        let word = forced(held[*n as usize], forces[*n as usize]);
        put_word(net, readers, words, pending, *n, word);
    }
}

/// The flip-flops capture, from the levels before the moment, where the clock went from one level to another.
pub(crate) fn clock_nets(net: &Netlist, wired: &Wired, was: Level, now: Level, nets: &mut NetWords)
    requires whole { IsWhole net.now }
    requires wiring { IsWiring net.now wired.now }
    requires fit { FitNets net.now nets.old }
    ensures fit { FitNets net.now nets.new }
    ensures forces { nets.new.forces.items ≡ nets.old.forces.items }
    ensures offs { nets.new.offs.items ≡ nets.old.offs.items }
    ensures lanes { (k : ℕ) (v own : List Level) → IsLane nets.old.words.items k v → IsLane nets.old.held.items k own
        → IsLane nets.new.held.items k (captured_levels net.now.net.drivers (edge was now) v own) }
{
    let rise = rise_of(was, now);
    if keeps(rise) {
        return;
    }
    let registers = &wired.registers;
    capture_each(
        net,
        rise,
        registers.nets.as_slice(),
        registers.sources.as_slice(),
        nets.words.as_slice(),
        &mut nets.held,
    );
    refresh_each(
        net,
        &wired.readers,
        nets.forces.as_slice(),
        nets.held.as_slice(),
        &mut nets.words,
        &mut nets.pending,
        registers.nets.as_slice(),
    );
}
