//! The levels of one net in 64 dies.
ghost use Rattle.std.specs.Prelude.{◌≡◌, ◌≢◌, ℕ, ◌<◌, Option, Some, None, not, unwrap_or};
ghost use Rattle.std.specs.Int.{bit_at};
ghost use Rattle.tester_types.specs.declared.level.Level.{Level};
ghost use Rattle.bench_net.specs.Gates.{negated};
ghost use Rattle.die_sim.specs.Die.{stuck};
ghost use Rattle.die_sim.specs.Moment.{agreed};
ghost use Rattle.die_sim.specs.Walk.{is_off};
ghost use Rattle.strobe_check.specs.Look.{is_met};
ghost use Rattle.die_words.specs.Lane.{bit, Shows, ShowsFault};
ghost use Rattle.die_words.specs.Pairs.{both, either, differ};
ghost use Rattle.die_words.specs.Fits.{same_word, FitsOwn};

use tester_types::{Level, Look};

/// The levels of a net in 64 dies, a bit each: which of them are 0, and which are 1. Unknown and off are neither.
#[derive(Clone, Copy, Debug, PartialEq, Eq)]
pub struct Word {
    pub zeros: u64,
    pub ones: u64,
}

/// Whether two words are one.
#[inline(always)]
pub(crate) fn same_word(left: Word, right: Word) -> bool
    ensures { result ≡ same_word left right }
{
    left.zeros == right.zeros && left.ones == right.ones
}

/// AND of two nets.
#[inline(always)]
pub(crate) fn both(left: Word, right: Word) -> Word
    ensures { (k : ℕ) (x y : Level) → Shows left k x → Shows right k y → Shows result k (both x y) }
{
    Word {
        zeros: left.zeros | right.zeros,
        ones: left.ones & right.ones,
    }
}

/// OR of two nets.
#[inline(always)]
pub(crate) fn either(left: Word, right: Word) -> Word
    ensures { (k : ℕ) (x y : Level) → Shows left k x → Shows right k y → Shows result k (either x y) }
{
    Word {
        zeros: left.zeros & right.zeros,
        ones: left.ones | right.ones,
    }
}

/// XOR of two nets.
#[inline(always)]
pub(crate) fn differ(left: Word, right: Word) -> Word
    ensures { (k : ℕ) (x y : Level) → Shows left k x → Shows right k y → Shows result k (differ x y) }
{
    Word {
        zeros: (left.zeros & right.zeros) | (left.ones & right.ones),
        ones: (left.zeros & right.ones) | (left.ones & right.zeros),
    }
}

/// NOT of a net.
#[inline(always)]
pub(crate) fn negated(word: Word) -> Word
    ensures { (k : ℕ) (x : Level) → Shows word k x → Shows result k (negated x) }
{
    Word {
        zeros: word.ones,
        ones: word.zeros,
    }
}

/// A net whose level is fixed in some dies: there it has that level.
#[inline(always)]
pub(crate) fn forced(word: Word, force: Word) -> Word
    ensures shows { (k : ℕ) (x : Level) (f : Option Level) → k < 64 → Shows word k x → ShowsFault force k f
        → Shows result k (unwrap_or f x) }
    ensures fits { FitsOwn force word result }
{
    Word {
        zeros: (word.zeros & !force.ones) | force.zeros,
        ones: (word.ones & !force.zeros) | force.ones,
    }
}

/// One net more is fixed, in one die.
pub(crate) fn put_fault(force: Word, lane: u32, value: bool) -> Word
    requires { lane < 64 }
    ensures here { ShowsFault force lane None → ShowsFault result lane (Some (stuck value)) }
    ensures others { (k : ℕ) (f : Option Level) → k ≢ lane → ShowsFault force k f → ShowsFault result k f }
{
    let mask = 1u64 << lane;
    if value {
        Word {
            zeros: force.zeros,
            ones: force.ones | mask,
        }
    } else {
        Word {
            zeros: force.zeros | mask,
            ones: force.ones,
        }
    }
}

/// What a flip-flop keeps after an edge that is in doubt: its own level where the D net has it too, else unknown.
#[inline(always)]
pub(crate) fn agreed(own: Word, source: Word) -> Word
    ensures { (k : ℕ) (x y : Level) → Shows own k x → Shows source k y → Shows result k (agreed x y) }
{
    Word {
        zeros: own.zeros & source.zeros,
        ones: own.ones & source.ones,
    }
}

/// The same level in all dies.
pub(crate) fn same_everywhere(level: Level) -> Word
    ensures { (k : ℕ) → k < 64 → Shows result k level }
{
    match level {
        Level::Zero => Word {
            zeros: u64::MAX,
            ones: 0,
        },
        Level::One => Word {
            zeros: 0,
            ones: u64::MAX,
        },
        Level::X | Level::Z => Word { zeros: 0, ones: 0 },
    }
}

/// The dies that don't meet a look at a net, where these are the dies in which the net is off.
pub(crate) fn failing(look: Look, word: Word, off: u64) -> u64
    ensures { (k : ℕ) (x : Level) → k < 64 → Shows word k x → bit_at off k ≡ bit (is_off x)
        → bit_at result k ≡ bit (not (is_met look x)) }
{
    match look {
        Look::Low | Look::LowWindow => !word.zeros,
        Look::High | Look::HighWindow => !word.ones,
        Look::Off | Look::OffWindow => !off,
        Look::Close => 0,
    }
}

/// The dies in which a net is off that is driven off, or not: those in which it isn't fixed, or none.
pub(crate) fn off_lanes(force: Word, off: bool) -> u64
    ensures { (k : ℕ) (f : Option Level) (x : Level) → k < 64 → ShowsFault force k f → is_off x ≡ off
        → bit_at result k ≡ bit (is_off (unwrap_or f x)) }
{
    if off { !(force.zeros | force.ones) } else { 0 }
}

/// The dies that don't meet a look at what has the same level in all: all of them or none.
pub(crate) fn failing_all(look: Look, level: Level) -> u64
    ensures { (k : ℕ) → k < 64 → bit_at result k ≡ bit (not (is_met look level)) }
{
    let off = off_lanes(Word { zeros: 0, ones: 0 }, is_off(level));
    failing(look, same_everywhere(level), off)
}

/// Whether a level is off.
fn is_off(level: Level) -> bool
    ensures { result ≡ is_off level }
{
    match level {
        Level::Zero => false,
        Level::One => false,
        Level::X => false,
        Level::Z => true,
    }
}
