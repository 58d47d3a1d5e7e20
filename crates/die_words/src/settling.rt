//! Settling: of the gates those are evaluated that a changed word reaches, one after another in the netlist's order.
ghost use Rattle.std.specs.Prelude.{◌≡◌, ℕ, ◌<◌, false, length, slice_index};
ghost use Rattle.bench_net.specs.Wiring.{gate_at, IsWired};
ghost use Rattle.bench_net.specs.Circuit.{IsWhole};
ghost use Rattle.die_sim.specs.Pending.{AreSeats};
ghost use Rattle.die_sim.specs.Readers.{AreReaderPlaces};
ghost use Rattle.die_words.specs.Flat.{driver_of, IsInside};
ghost use Rattle.die_words.specs.Fits.{word_at, FitsOwn, FitsGate, GatesFit, GatesWait, PutsWord, VisitsWord};
ghost use Rattle.die_words.specs.Board.{IsWiring};

use crate::flat::Flat;
use crate::gates::gate_word;
use crate::wiring::Wired;
use crate::word::{Word, forced, same_word};
use bench_net::Netlist;
use die_sim::{Pending, Readers, activate_readers};

/// Gives a net a word. Where that is another than before, the gates are pending that read it.
#[inline(always)]
pub(crate) fn put_word(
    net: &Netlist,
    readers: &Readers,
    words: &mut Vec<Word>,
    pending: &mut Pending,
    n: u32,
    word: Word,
)
    requires whole { IsWhole net.now }
    requires readers { AreReaderPlaces net.now readers.now.starts.items readers.now.places.items }
    requires seats { AreSeats net.now.order pending.old }
    requires words { n < length words.old.items }
    requires within { n < length net.now.net.names }
    ensures puts { PutsWord net.now.net.drivers n word words.old.items words.new.items pending.old pending.new }
    ensures seats { AreSeats net.now.order pending.new }
{
    if same_word(words[n as usize], word) {
        return;
    }
    words[n as usize] = word;
    activate_readers(net, readers, pending, n);
}

/// Each net gets its own word: what it is driven to or keeps, unless a fault fixes it.
pub(crate) fn put_own(forces: &[Word], held: &[Word], words: &mut Vec<Word>)
    requires forces { length forces.now ≡ length words.old.items }
    requires held { length held.now ≡ length words.old.items }
    ensures count { length words.new.items ≡ length words.old.items }
    ensures fit { (n : ℕ) → n < length words.old.items
        → FitsOwn (word_at forces.now n) (word_at held.now n) (word_at words.new.items n) }
{
    for n in 0..words.len() {
        words[n] = forced(held[n], forces[n]);
    }
}

/// What a gate's net has: what the gate gives, unless a fault fixes it.
#[inline(always)]
fn evaluated(gate: Flat, pins: &[u32], forces: &[Word], words: &[Word], g: u32) -> Word
    requires inside { IsInside (length pins.now) gate }
    requires wired { IsWired (length words.now) (driver_of pins.now gate) }
    requires within { g < length forces.now }
    ensures { FitsGate (driver_of pins.now gate) (word_at forces.now g) words.now result }
{
    forced(gate_word(gate, pins, words), forces[g as usize])
}

/// Evaluates the gate at a place.
#[inline(always)]
fn visit(
    net: &Netlist,
    wired: &Wired,
    forces: &[Word],
    words: &mut Vec<Word>,
    pending: &mut Pending,
    place: usize,
    g: u32,
)
    requires whole { IsWhole net.now }
    requires wired { IsWiring net.now wired.now }
    requires forces { length forces.now ≡ length net.now.net.drivers }
    requires words { length words.old.items ≡ length net.now.net.drivers }
    requires seats { AreSeats net.now.order pending.old }
    requires within { place < length net.now.order }
    requires gate { slice_index net.now.order place ≡ g }
    ensures visits { VisitsWord net.now forces.now g words.old.items words.new.items pending.old pending.new }
    ensures seats { AreSeats net.now.order pending.new }
{
    let gate = wired.gates.gates.as_slice()[place];
    let pins = wired.gates.pins.as_slice();
    let word = evaluated(gate, pins, forces, words.as_slice(), g);
    pending.clear_at(place);
    put_word(net, &wired.readers, words, pending, g, word);
}

/// Evaluates the gates that are pending, and those that change on the way, each once, in the netlist's order.
pub(crate) fn walk(
    net: &Netlist,
    wired: &Wired,
    forces: &[Word],
    words: &mut Vec<Word>,
    pending: &mut Pending,
)
    requires whole { IsWhole net.now }
    requires wired { IsWiring net.now wired.now }
    requires forces { length forces.now ≡ length net.now.net.drivers }
    requires words { length words.old.items ≡ length net.now.net.drivers }
    requires waits { GatesWait net.now forces.now words.old.items pending.old }
    ensures count { length words.new.items ≡ length words.old.items }
    ensures gates { GatesFit net.now forces.now words.new.items }
    ensures kept { (n : ℕ) → gate_at net.now.net.drivers n ≡ false
        → word_at words.new.items n ≡ word_at words.old.items n }
    ensures seats { AreSeats net.now.order pending.new }
{
    let order = net.order();
    let mut place = pending.next(0);
    while place < order.len() {
        visit(net, wired, forces, words, pending, place, order[place]);
        place = pending.next(place + 1);
    }
}

/// Evaluates all gates, each once, in the netlist's order.
pub(crate) fn walk_all(
    net: &Netlist,
    wired: &Wired,
    forces: &[Word],
    words: &mut Vec<Word>,
    pending: &mut Pending,
)
    requires whole { IsWhole net.now }
    requires wired { IsWiring net.now wired.now }
    requires forces { length forces.now ≡ length net.now.net.drivers }
    requires words { length words.old.items ≡ length net.now.net.drivers }
    requires seats { AreSeats net.now.order pending.old }
    ensures count { length words.new.items ≡ length words.old.items }
    ensures gates { GatesFit net.now forces.now words.new.items }
    ensures kept { (n : ℕ) → gate_at net.now.net.drivers n ≡ false
        → word_at words.new.items n ≡ word_at words.old.items n }
    ensures seats { AreSeats net.now.order pending.new }
{
    let order = net.order();
    for place in 0..order.len() {
        visit(net, wired, forces, words, pending, place, order[place]);
    }
}
