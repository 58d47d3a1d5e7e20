//! Numbers as decimal digits spell them.

ghost use Rattle.std.specs.Prelude.{◌≡◌, fold};
ghost use Rattle.text_bytes.specs.Numbers.{are_digits, with_digit, number_by};

use crate::byte::all_digits;

/// Whether these are digits, at least one.
pub fn are_digits(bytes: &[u8]) -> bool
    ensures { result ≡ are_digits bytes.now }
{
    !bytes.is_empty() && all_digits(bytes)
}

/// The number of digits; one beyond 2^64 - 1 is read as that.
pub fn number_of(digits: &[u8]) -> u64
    ensures { result ≡ fold with_digit 0 digits.now }
{
    let mut value = 0u64;
    for digit in digits {
        let digit = u64::from(digit.saturating_sub(b'0'));
        value = value.saturating_mul(10).saturating_add(digit);
    }
    value
}

/// The number that bytes spell, if they are digits; one beyond 2^64 - 1 is read as that.
pub fn number_by(bytes: &[u8]) -> Option<u64>
    ensures { result ≡ number_by bytes.now }
{
    if are_digits(bytes) {
        Some(number_of(bytes))
    } else {
        None
    }
}
