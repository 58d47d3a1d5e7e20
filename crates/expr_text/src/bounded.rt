//! Whole numbers from -(2^127 - 1) to 2^127 - 1, and what leaves that range.

ghost use Rattle.std.specs.Prelude.{◌≡◌, ℕ, pos, ◌<◌, ◌^◌, ◌+ℤ◌, ◌-ℤ◌, ◌*ℤ◌, neg_ℤ, unsigned_abs, int_div, IfOk};
ghost use Rattle.expr_text.specs.Range.{within, divisor_of};

use crate::fault::ExprFault;

/// The sum, unless it is out of range.
pub fn sum(a: i128, b: i128) -> Result<i128, ExprFault>
    ensures value { result ≡ within (a +ℤ b) }
    ensures fits { IfOk result (λ number. unsigned_abs number < 2 ^ 127) }
{
    match a.checked_add(b) {
        Some(number) if number != i128::MIN => Ok(number),
        _ => Err(ExprFault::OutOfRange),
    }
}

/// The difference, unless it is out of range.
pub fn difference(a: i128, b: i128) -> Result<i128, ExprFault>
    ensures value { result ≡ within (a -ℤ b) }
    ensures fits { IfOk result (λ number. unsigned_abs number < 2 ^ 127) }
{
    match a.checked_sub(b) {
        Some(number) if number != i128::MIN => Ok(number),
        _ => Err(ExprFault::OutOfRange),
    }
}

/// The product, unless it is out of range.
pub fn product(a: i128, b: i128) -> Result<i128, ExprFault>
    ensures value { result ≡ within (a *ℤ b) }
    ensures fits { IfOk result (λ number. unsigned_abs number < 2 ^ 127) }
{
    match a.checked_mul(b) {
        Some(number) if number != i128::MIN => Ok(number),
        _ => Err(ExprFault::OutOfRange),
    }
}

/// The greatest common divisor, by Euclid's remainders; of a number and 0 it is that number.
pub fn greatest_divisor(a: u128, b: u128) -> u128
    ensures { result ≡ divisor_of a b }
{
    let mut x = a;
    let mut y = b;
    while y != 0 {
        let rest = x % y;
        x = y;
        y = rest;
    }
    x
}

/// The quotient by a positive number, rounded toward 0.
pub fn divided(number: i128, divisor: u128) -> i128
    requires positive { 0 < divisor }
    requires fits { divisor < 2 ^ 127 }
    ensures { result ≡ int_div number (pos divisor) }
{
    number / divisor as i128
}

/// The number with its other sign.
pub fn negated(number: i128) -> i128
    requires { unsigned_abs number < 2 ^ 127 }
    ensures { result ≡ neg_ℤ number }
{
    -number
}
