//! Fractions in lowest terms.

ghost use Rattle.std.specs.Prelude.{◌≡◌, ◌≢◌, ℤ, pos, ◌*ℤ◌, ◌<ℤ◌, ◌<◌, ◌^◌, unsigned_abs, IfOk};
ghost use Rattle.expr_text.specs.Range.{within};
ghost use Rattle.expr_text.specs.Ratio.{whole, lowest, lowest_signed, cross_of, sum_of, difference_of, product_of, nonzero_quotient_of, quotient_of, is_above, least_of, greatest_of};

use crate::bounded::{difference, divided, greatest_divisor, negated, product, sum};
use crate::fault::ExprFault;
use std::marker::Model;

/// A fraction n/d in lowest terms: d is positive, and both lie from -(2^127 - 1) to 2^127 - 1.
#[derive(Clone, Copy, PartialEq, Eq, Debug)]
pub struct Fraction {
    numerator: i128,
    denominator: i128,
}

impl Model for Fraction {
    ghost use Rattle.expr_text.specs.Ratio.{Ratio, IsInLowestTerms};

    ghost Value = { Ratio };

    ghost view = { λ f. record { numerator = f.numerator; denominator = f.denominator } };

    ghost invariant = { λ f. IsInLowestTerms f.numerator f.denominator };

    ghost inverse = { λ r. record { numerator = r.numerator; denominator = r.denominator } };
}

impl Fraction {
    /// The fraction above/below, whose lower number is positive.
    pub fn new(above: i128, below: i128) -> Fraction
        requires positive { pos 0 <ℤ below }
        requires above_fits { unsigned_abs above < 2 ^ 127 }
        ensures { result ≡ lowest above below }
    {
        let common = greatest_divisor(above.unsigned_abs(), below.unsigned_abs());
        Fraction {
            numerator: divided(above, common),
            denominator: divided(below, common),
        }
    }

    /// A whole number.
    pub fn whole(number: i128) -> Fraction
        requires { unsigned_abs number < 2 ^ 127 }
        ensures { result ≡ whole number }
    {
        Fraction {
            numerator: number,
            denominator: 1,
        }
    }

    /// The fraction above/below, whose lower number isn't 0.
    fn signed(above: i128, below: i128) -> Fraction
        requires not_zero { below ≢ pos 0 }
        requires above_fits { unsigned_abs above < 2 ^ 127 }
        requires below_fits { unsigned_abs below < 2 ^ 127 }
        ensures { result ≡ lowest_signed above below }
    {
        if below < 0 {
            Fraction::new(negated(above), negated(below))
        } else {
            Fraction::new(above, below)
        }
    }

    /// The numerator, which has the fraction's sign.
    pub fn numerator(&self) -> i128
        ensures { result ≡ self.now.numerator }
    {
        self.numerator
    }

    /// The denominator, which is positive.
    pub fn denominator(&self) -> i128
        ensures value { result ≡ self.now.denominator }
        ensures positive { pos 0 <ℤ self.now.denominator }
    {
        self.denominator
    }

    /// The products a·d and c·b of a/b and c/d.
    fn cross(&self, other: &Fraction) -> Result<(i128, i128), ExprFault>
        ensures { result ≡ cross_of self.now other.now }
    {
        let left = product(self.numerator, other.denominator)?;
        let right = product(other.numerator, self.denominator)?;
        Ok((left, right))
    }

    /// The product of the two denominators, which is positive.
    fn common_denominator(&self, other: &Fraction) -> Result<i128, ExprFault>
        ensures value { result ≡ within (self.now.denominator *ℤ other.now.denominator) }
        ensures positive { IfOk result (λ below. pos 0 <ℤ below) }
    {
        product(self.denominator, other.denominator)
    }

    /// The sum of two fractions.
    pub fn plus(&self, other: &Fraction) -> Result<Fraction, ExprFault>
        ensures { result ≡ sum_of self.now other.now }
    {
        let (left, right) = self.cross(other)?;
        let below = self.common_denominator(other)?;
        let above = sum(left, right)?;
        Ok(Fraction::new(above, below))
    }

    /// The difference of two fractions.
    pub fn minus(&self, other: &Fraction) -> Result<Fraction, ExprFault>
        ensures { result ≡ difference_of self.now other.now }
    {
        let (left, right) = self.cross(other)?;
        let below = self.common_denominator(other)?;
        let above = difference(left, right)?;
        Ok(Fraction::new(above, below))
    }

    /// The product of two fractions.
    pub fn times(&self, other: &Fraction) -> Result<Fraction, ExprFault>
        ensures { result ≡ product_of self.now other.now }
    {
        let above = product(self.numerator, other.numerator)?;
        let below = self.common_denominator(other)?;
        Ok(Fraction::new(above, below))
    }

    /// The quotient of two fractions; the divisor may not be 0.
    pub fn over(&self, other: &Fraction) -> Result<Fraction, ExprFault>
        ensures { result ≡ quotient_of self.now other.now }
    {
        if other.numerator == 0 {
            Err(ExprFault::ZeroDivisor)
        } else {
            self.over_nonzero(other)
        }
    }

    /// The quotient by a fraction that isn't 0.
    fn over_nonzero(&self, other: &Fraction) -> Result<Fraction, ExprFault>
        requires { other.now.numerator ≢ pos 0 }
        ensures { result ≡ nonzero_quotient_of self.now other.now }
    {
        let above = product(self.numerator, other.denominator)?;
        let below = self.denominator_by(other)?;
        Ok(Fraction::signed(above, below))
    }

    /// The product of this denominator and the other's numerator, which isn't 0.
    fn denominator_by(&self, other: &Fraction) -> Result<i128, ExprFault>
        requires { other.now.numerator ≢ pos 0 }
        ensures value { result ≡ within (self.now.denominator *ℤ other.now.numerator) }
        ensures not_zero { IfOk result (λ below. below ≢ pos 0) }
        ensures fits { IfOk result (λ below. unsigned_abs below < 2 ^ 127) }
    {
        product(self.denominator, other.numerator)
    }

    /// Whether this fraction is above the other.
    pub fn exceeds(&self, other: &Fraction) -> Result<bool, ExprFault>
        ensures { result ≡ is_above self.now other.now }
    {
        let (left, right) = self.cross(other)?;
        Ok(right < left)
    }

    /// The lesser of two fractions.
    pub fn least(&self, other: &Fraction) -> Result<Fraction, ExprFault>
        ensures { result ≡ least_of self.now other.now }
    {
        if self.exceeds(other)? {
            Ok(*other)
        } else {
            Ok(*self)
        }
    }

    /// The greater of two fractions.
    pub fn greatest(&self, other: &Fraction) -> Result<Fraction, ExprFault>
        ensures { result ≡ greatest_of self.now other.now }
    {
        if self.exceeds(other)? {
            Ok(*self)
        } else {
            Ok(*other)
        }
    }
}

/// The time as a whole number of femtoseconds, if it is one.
pub fn whole_fs(value: &Fraction) -> Option<i128>
    ensures whole { value.now.denominator ≡ pos 1 → result ≡ Some value.now.numerator }
    ensures broken { value.now.denominator ≢ pos 1 → result ≡ None }
{
    if value.denominator == 1 {
        Some(value.numerator)
    } else {
        None
    }
}
