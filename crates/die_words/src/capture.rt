//! The clock's change, and what flip-flops keep after it.
ghost use Rattle.std.specs.Prelude.{◌≡◌, ◌≢◌, ℕ, ◌+◌, ◌<◌, true, false, List, length, IfOk, OnOk, slice_index_or};
ghost use Rattle.tester_types.specs.declared.level.Level.{Level};
ghost use Rattle.bench_net.specs.declared.gate.Driver.TheVariants.{Dff};
ghost use Rattle.bench_net.specs.Circuit.{IsWhole};
ghost use Rattle.bench_net.specs.Wiring.{driver_at};
ghost use Rattle.die_sim.specs.Moment.{edge, capture};
ghost use Rattle.die_sim.specs.Stepped.{captured_levels};
ghost use Rattle.die_sim.specs.Walk.{is_flip_flop};
ghost use Rattle.die_words.specs.Lane.{nothing, Shows, IsLane};
ghost use Rattle.die_words.specs.Capture.{kept_after, AreRegisters};
ghost use Rattle.die_words.specs.declared.capture.Rise.TheVariants.{Keeps};

use crate::word::{Word, agreed};
use bench_net::{Driver, Netlist};
use std::alloc::{AllocError, Global};
use tester_types::Level;

/// What the clock's change means for a flip-flop: it takes what its D net has, perhaps so, or it keeps its own.
#[derive(Clone, Copy, Debug, PartialEq, Eq)]
pub(crate) enum Rise {
    Takes,
    Doubts,
    Keeps,
}

/// What the clock's change means.
pub(crate) fn rise_of(was: Level, now: Level) -> Rise
    ensures { (own d : Level) → capture (edge was now) own d ≡ kept_after result own d }
{
    match was {
        Level::Zero => match now {
            Level::Zero => Rise::Keeps,
            Level::One => Rise::Takes,
            Level::X | Level::Z => Rise::Doubts,
        },
        Level::One => Rise::Keeps,
        Level::X | Level::Z => match now {
            Level::One => Rise::Doubts,
            Level::Zero | Level::X | Level::Z => Rise::Keeps,
        },
    }
}

/// Whether flip-flops keep their own.
pub(crate) fn keeps(rise: Rise) -> bool
    ensures { result ≡ true → rise ≡ Keeps }
{
    matches!(rise, Rise::Keeps)
}

/// What a flip-flop keeps, by what it kept and its D net.
#[inline(always)]
fn kept_word(rise: Rise, own: Word, source: Word) -> Word
    ensures { (k : ℕ) (x d : Level) → Shows own k x → Shows source k d → Shows result k (kept_after rise x d) }
{
    match rise {
        Rise::Takes => source,
        Rise::Doubts => agreed(own, source),
        Rise::Keeps => own,
    }
}

/// The flip-flops of a netlist, and beside them their D nets.
#[derive(Drop)]
pub(crate) struct Registers {
    pub(crate) nets: Vec<u32>,
    pub(crate) sources: Vec<u32>,
}

/// Adds a net where it is a flip-flop.
fn add_register(
    nets: &mut Vec<u32>,
    sources: &mut Vec<u32>,
    net: &Netlist,
    n: u32,
) -> Result<(), AllocError>
    requires within { n < length net.now.net.names }
    requires so_far { AreRegisters net.now.net.drivers nets.old.items sources.old.items n }
    ensures { OnOk result (AreRegisters net.now.net.drivers nets.new.items sources.new.items (n + 1)) }
{
    if let Driver::Dff(source) = net.driver(n) {
        nets.push(n)?;
        sources.push(*source)?;
    }
    Ok(())
}

impl Registers {
    /// The flip-flops of a netlist.
    pub(crate) fn of_net(alloc: Global, net: &Netlist) -> Result<Registers, AllocError>
        ensures { IfOk result (λ r. AreRegisters net.now.net.drivers r.nets.items r.sources.items
            (length net.now.net.drivers)) }
    {
        let mut nets = Vec::new(alloc);
        let mut sources = Vec::new(alloc);
        for n in 0..net.nets() {
            add_register(&mut nets, &mut sources, net, n)?;
        }
        Ok(Registers { nets, sources })
    }
}

/// A flip-flop captures, from the level of its D net before the moment.
fn capture_one(rise: Rise, before: &[Word], held: &mut Vec<Word>, n: u32, source: u32)
    requires net { n < length held.old.items }
    requires source { source < length before.now }
    ensures count { length held.new.items ≡ length held.old.items }
    ensures here { (k : ℕ) (x d : Level) → Shows (slice_index_or held.old.items n nothing) k x
        → Shows (slice_index_or before.now source nothing) k d
        → Shows (slice_index_or held.new.items n nothing) k (kept_after rise x d) }
    ensures others { (m : ℕ) → m ≢ n
        → slice_index_or held.new.items m nothing ≡ slice_index_or held.old.items m nothing }
{
    let own = held[n as usize];
    held[n as usize] = kept_word(rise, own, before[source as usize]);
}

/// These flip-flops capture, each from its D net.
pub(crate) fn capture_each(
    net: &Netlist,
    rise: Rise,
    nets: &[u32],
    sources: &[u32],
    before: &[Word],
    held: &mut Vec<Word>,
)
    requires whole { IsWhole net.now }
    requires registers { AreRegisters net.now.net.drivers nets.now sources.now (length net.now.net.drivers) }
    requires before { length before.now ≡ length net.now.net.drivers }
    requires held { length held.old.items ≡ length net.now.net.drivers }
    ensures count { length held.new.items ≡ length held.old.items }
    ensures lanes { (was now : Level) → ((x d : Level) → capture (edge was now) x d ≡ kept_after rise x d)
        → (k : ℕ) (v own : List Level) → IsLane before.now k v → IsLane held.old.items k own
        → IsLane held.new.items k (captured_levels net.now.net.drivers (edge was now) v own) }
    ensures others { (n : ℕ) → is_flip_flop (driver_at net.now.net.drivers n) ≡ false
        → slice_index_or held.new.items n nothing ≡ slice_index_or held.old.items n nothing }
{
    for place in 0..nets.len() {
        capture_one(rise, before, held, nets[place], sources[place]);
    }
}
