//! Names of vars, and their short names in base 94.

ghost use Rattle.std.specs.Prelude.{◌≡◌, ◌+◌, ◌<◌, ◌≤◌, [], ◌∷◌, ◌++◌, ℕ, List, IfSome, IfNone, length, take, codes};
ghost use Rattle.text_bytes.specs.Limits.{most_signals};
ghost use Rattle.vcd_text.specs.Dump.{is_plain, id_of};

use text_bytes::{MOST_SIGNALS, all_words, begins_name};

/// The least byte of a short name.
const LEAST: u8 = 33;

/// How many digits the base has.
const BASE: u16 = 94;

/// Whether a name is a letter or the low line, then letters, digits and low lines.
pub fn is_plain(name: &[u8]) -> bool
    ensures { result ≡ is_plain name.now }
{
    match name {
        [first, ..] => begins_name(*first) && all_words(name),
        [] => false,
    }
}

/// The number of a short name of one digit.
fn number_of_one(digit: u8) -> Option<u16>
    ensures found { IfSome result (λ n. (n < most_signals) × (digit ∷ [] ≡ id_of n)) }
    ensures none { IfNone result ((n : ℕ) → n < most_signals → digit ∷ [] ≡ id_of n → ⊥) }
{
    let number = u16::from(digit.saturating_sub(LEAST));
    if digit >= LEAST && number < BASE {
        Some(number)
    } else {
        None
    }
}

/// The number of a short name of two digits.
fn number_of_two(low: u8, high: u8) -> Option<u16>
    ensures found { IfSome result (λ n. (n < most_signals) × (low ∷ high ∷ [] ≡ id_of n)) }
    ensures none { IfNone result ((n : ℕ) → n < most_signals → low ∷ high ∷ [] ≡ id_of n → ⊥) }
{
    let low_digit = u16::from(low.saturating_sub(LEAST));
    let high_digit = u16::from(high.saturating_sub(LEAST));
    let number = low_digit + high_digit * BASE;
    if low >= LEAST && low_digit < BASE && high > LEAST && number < MOST_SIGNALS as u16 {
        Some(number)
    } else {
        None
    }
}

/// The number of a short name.
pub(crate) fn number_of(id: &[u8]) -> Option<u16>
    ensures found { IfSome result (λ n. (n < most_signals) × (id.now ≡ id_of n)) }
    ensures none { IfNone result ((n : ℕ) → n < most_signals → id.now ≡ id_of n → ⊥) }
{
    match id {
        [digit] => number_of_one(*digit),
        [low, high] => number_of_two(*low, *high),
        _ => None,
    }
}

/// How many digits the short name of a signal has.
pub(crate) fn id_len(signal: u16) -> usize
    requires { signal < most_signals }
    ensures len { result ≡ length (id_of signal) }
    ensures few { result ≤ 2 }
{
    if signal < BASE { 1 } else { 2 }
}

/// The digits of the short name of a signal; the second means nothing where it has one.
pub(crate) fn id_bytes(signal: u16) -> [u8; 2]
    requires { signal < most_signals }
    ensures { take (length (id_of signal)) result ≡ id_of signal }
{
    [LEAST + (signal % BASE) as u8, LEAST + (signal / BASE) as u8]
}
