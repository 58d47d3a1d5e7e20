//! What gates give in 64 dies.
ghost use Rattle.std.specs.Prelude.{◌≡◌, ℕ, ◌<◌, [], ◌∷◌, true, List, length, All, slice_index};
ghost use Rattle.tester_types.specs.declared.level.Level.{Level};
ghost use Rattle.bench_net.specs.Gates.{level_at, zeros, ones, and_of, or_of, xor_of, gate_of, is_single};
ghost use Rattle.bench_net.specs.Wiring.{pins_of, IsWired};
ghost use Rattle.die_sim.specs.Die.{driven};
ghost use Rattle.die_words.specs.Lane.{Shows};
ghost use Rattle.die_words.specs.Fits.{ShowsEach};
ghost use Rattle.die_words.specs.Flat.{driver_of, IsInside};

use crate::flat::Flat;
use crate::word::{Word, both, differ, either, negated};
use bench_net::GateKind;

/// What a gate gives that reads one net.
#[inline(always)]
fn one_word(kind: GateKind, word: Word) -> Word
    ensures { (k : ℕ) (v : List Level) (n : ℕ) → Shows word k (level_at v n)
        → Shows result k (gate_of kind v (n ∷ [])) }
{
    match kind {
        GateKind::And => word,
        GateKind::Nand => negated(word),
        GateKind::Or => word,
        GateKind::Nor => negated(word),
        GateKind::Xor => word,
        GateKind::Xnor => negated(word),
        GateKind::Not => negated(word),
        GateKind::Buf => word,
    }
}

/// What a gate gives that reads two nets.
#[inline(always)]
fn two_word(kind: GateKind, left: Word, right: Word) -> Word
    ensures { (k : ℕ) (v : List Level) (m n : ℕ) → Shows left k (level_at v m) → Shows right k (level_at v n)
        → Shows result k (gate_of kind v (m ∷ n ∷ [])) }
{
    match kind {
        GateKind::And => both(left, right),
        GateKind::Nand => negated(both(left, right)),
        GateKind::Or => either(left, right),
        GateKind::Nor => negated(either(left, right)),
        GateKind::Xor => differ(left, right),
        GateKind::Xnor => negated(differ(left, right)),
        GateKind::Not => negated(left),
        GateKind::Buf => left,
    }
}

/// AND of nets.
fn and_word(words: &[Word], pins: &[u32]) -> Word
    requires { All (λ p. p < length words.now) pins.now }
    ensures { (k : ℕ) (v : List Level) → k < 64 → ShowsEach words.now k v pins.now
        → Shows result k (and_of (zeros v pins.now) (ones v pins.now) (length pins.now)) }
{
    let mut word = Word {
        zeros: 0,
        ones: u64::MAX,
    };
    for pin in pins {
        word = both(word, words[*pin as usize]);
    }
    word
}

/// OR of nets.
fn or_word(words: &[Word], pins: &[u32]) -> Word
    requires { All (λ p. p < length words.now) pins.now }
    ensures { (k : ℕ) (v : List Level) → k < 64 → ShowsEach words.now k v pins.now
        → Shows result k (or_of (zeros v pins.now) (ones v pins.now) (length pins.now)) }
{
    let mut word = Word {
        zeros: u64::MAX,
        ones: 0,
    };
    for pin in pins {
        word = either(word, words[*pin as usize]);
    }
    word
}

/// XOR of nets.
fn xor_word(words: &[Word], pins: &[u32]) -> Word
    requires { All (λ p. p < length words.now) pins.now }
    ensures { (k : ℕ) (v : List Level) → k < 64 → ShowsEach words.now k v pins.now
        → Shows result k (xor_of (zeros v pins.now) (ones v pins.now) (length pins.now)) }
{
    let mut word = Word {
        zeros: u64::MAX,
        ones: 0,
    };
    for pin in pins {
        word = differ(word, words[*pin as usize]);
    }
    word
}

/// The first of nets.
fn first_word(words: &[Word], pins: &[u32]) -> Word
    requires within { All (λ p. p < length words.now) pins.now }
    requires some { length pins.now ≡ 1 }
    ensures { (k : ℕ) (v : List Level) → ShowsEach words.now k v pins.now
        → Shows result k (level_at v (slice_index pins.now 0)) }
{
    words[pins[0] as usize]
}

/// What a gate gives that reads these nets.
fn many_word(kind: GateKind, words: &[Word], pins: &[u32]) -> Word
    requires within { All (λ p. p < length words.now) pins.now }
    requires single { is_single kind ≡ true → length pins.now ≡ 1 }
    ensures { (k : ℕ) (v : List Level) → k < 64 → ShowsEach words.now k v pins.now
        → Shows result k (gate_of kind v pins.now) }
{
    match kind {
        GateKind::And => and_word(words, pins),
        GateKind::Nand => negated(and_word(words, pins)),
        GateKind::Or => or_word(words, pins),
        GateKind::Nor => negated(or_word(words, pins)),
        GateKind::Xor => xor_word(words, pins),
        GateKind::Xnor => negated(xor_word(words, pins)),
        GateKind::Not => negated(first_word(words, pins)),
        GateKind::Buf => first_word(words, pins),
    }
}

/// What a gate gives.
#[inline(always)]
pub(crate) fn gate_word(gate: Flat, pins: &[u32], words: &[Word]) -> Word
    requires inside { IsInside (length pins.now) gate }
    requires wired { IsWired (length words.now) (driver_of pins.now gate) }
    ensures { (k : ℕ) (v : List Level) (own : Level) → k < 64
        → ShowsEach words.now k v (pins_of (driver_of pins.now gate))
        → Shows result k (driven (driver_of pins.now gate) own v) }
{
    match gate {
        Flat::One(kind, net) => one_word(kind, words[net as usize]),
        Flat::Two(kind, first, last) => {
            two_word(kind, words[first as usize], words[last as usize])
        }
        Flat::Many(kind, from, to) => { many_word(kind, words, &pins[from as usize..to as usize]) }
    }
}
