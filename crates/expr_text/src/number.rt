//! The numbers of an expression, with their decimals and units.

ghost use Rattle.std.specs.Prelude.{◌≡◌, pos, ◌+◌, ◌-◌, ◌*◌, ◌<◌, ◌≤◌, ◌^◌, length, IfSome};
ghost use Rattle.expr_text.specs.Ratio.{lowest};
ghost use Rattle.expr_text.specs.Lexeme.{digits_from};
ghost use Rattle.expr_text.specs.Front.{capped, ranged, unit_front, digits_of, decimals_of, pointed_len, number_len, number_from, number_front};
ghost use Rattle.expr_text.specs.Memory.{lexeme_of};

use crate::byte::{begins, begins_pair, digits_len};
use crate::fraction::Fraction;
use crate::token::{Number, Token};
use crate::unit::Unit;

/// What a number has to be below.
const LIMIT: u128 = 170141183460469231731687303715884105728;

/// The most decimals whose power of ten is in range.
const MOST_DECIMALS: usize = 38;

/// The number that goes on with a digit, if it is in range.
#[tactic(auto, unfolding(crate::specs::Front::capped))]
fn with_digit(value: u128, digit: u8) -> Option<u128>
    ensures { result ≡ capped (value * 10 + (digit - 48)) }
{
    let more = value
        .checked_mul(10)?
        .checked_add(u128::from(digit.saturating_sub(b'0')))?;
    if more < LIMIT { Some(more) } else { None }
}

/// The number that goes on with these digits, if it is in range.
fn digits_from(start: u128, digits: &[u8]) -> Option<u128>
    requires { start < 2 ^ 127 }
    ensures value { result ≡ capped (digits_from start digits.now) }
    ensures fits { IfSome result (λ value. value < 2 ^ 127) }
{
    let mut value = start;
    for digit in digits {
        value = with_digit(value, *digit)?;
    }
    Some(value)
}

/// The number of all digits, if it is in range.
fn all_digits(digits: &[u8], decimals: &[u8]) -> Option<u128>
    ensures value { result ≡ capped (digits_from (digits_from 0 digits.now) decimals.now) }
    ensures fits { IfSome result (λ value. value < 2 ^ 127) }
{
    match digits_from(0, digits) {
        Some(start) => digits_from(start, decimals),
        None => None,
    }
}

/// The power of ten, if it is in range.
fn power_of_ten(exponent: usize) -> Option<u128>
    ensures value { result ≡ capped (10 ^ exponent) }
    ensures fits { IfSome result (λ power. (0 < power) × (power < 2 ^ 127)) }
{
    if exponent <= MOST_DECIMALS {
        Some(10u128.pow(exponent as u32))
    } else {
        None
    }
}

/// The fraction of these numbers.
fn fraction(above: u128, below: u128) -> Fraction
    requires above { above < 2 ^ 127 }
    requires below { below < 2 ^ 127 }
    requires positive { 0 < below }
    ensures { result ≡ lowest (pos above) (pos below) }
{
    Fraction::new(above as i128, below as i128)
}

/// The value of these digits and decimals, if it is in range.
fn value_of(digits: &[u8], decimals: &[u8]) -> Option<Fraction>
    ensures { result ≡ ranged (digits_from (digits_from 0 digits.now) decimals.now) (length decimals.now) }
{
    let Some(above) = all_digits(digits, decimals) else {
        return None;
    };
    let Some(below) = power_of_ten(decimals.len()) else {
        return None;
    };
    Some(fraction(above, below))
}

/// The number of these digits and decimals.
fn number_from(digits: &[u8], decimals: &[u8], unit: Unit) -> Number
    ensures { result ≡ number_from digits.now decimals.now unit }
{
    match value_of(digits, decimals) {
        Some(value) => Number {
            value,
            unit,
            in_range: true,
        },
        None => Number {
            value: Fraction::whole(0),
            unit,
            in_range: false,
        },
    }
}

/// The unit at the front, and how many bytes it has.
#[tactic(auto, unfolding(crate::specs::Front::unit_front))]
fn unit_front(text: &[u8]) -> (Unit, usize)
    ensures unit { result ≡ unit_front text.now }
    ensures within { result.1 ≤ length text.now }
{
    if begins(text, b's') {
        (Unit::Seconds, 1)
    } else if begins_pair(text, b'm', b's') {
        (Unit::Milliseconds, 2)
    } else if begins_pair(text, b'u', b's') {
        (Unit::Microseconds, 2)
    } else if begins_pair(text, b'n', b's') {
        (Unit::Nanoseconds, 2)
    } else if begins_pair(text, b'p', b's') {
        (Unit::Picoseconds, 2)
    } else if begins_pair(text, b'f', b's') {
        (Unit::Femtoseconds, 2)
    } else {
        (Unit::Plain, 0)
    }
}

/// The decimals behind the whole digits, without their point.
fn decimals_of(rest: &[u8]) -> &[u8]
    ensures decimals { result.now ≡ decimals_of rest.now }
    ensures within { pointed_len (length result.now) ≤ length rest.now }
{
    match rest {
        [b, digits @ ..] if *b == b'.' => &digits[..digits_len(digits)],
        _ => &rest[..0],
    }
}

/// How many bytes so many decimals have with their point.
fn pointed_len(decimals: usize) -> usize
    requires { decimals < 2 ^ 63 }
    ensures { result ≡ pointed_len decimals }
{
    if decimals == 0 { 0 } else { decimals + 1 }
}

/// The number at the front of a text that begins with a digit, and how many bytes it has.
#[tactic(auto, unfolding(crate::specs::Front::number_front))]
pub(crate) fn number_front(text: &[u8]) -> (Token, usize)
    ensures { (lexeme_of result.0, result.1) ≡ number_front text.now }
{
    let whole = digits_len(text);
    let decimals = decimals_of(&text[whole..]);
    let len = whole + pointed_len(decimals.len());
    let (unit, unit_len) = unit_front(&text[len..]);
    let number = number_from(&text[..whole], decimals, unit);
    (Token::Number(number), len + unit_len)
}
