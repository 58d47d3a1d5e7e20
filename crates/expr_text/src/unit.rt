//! Units of time, in femtoseconds.

ghost use Rattle.std.specs.Prelude.{◌≡◌};
ghost use Rattle.expr_text.specs.Ratio.{whole};
ghost use Rattle.expr_text.specs.Unit.{femtoseconds_of};

use crate::fraction::Fraction;

/// A unit of time; a plain number has none.
#[derive(Clone, Copy, PartialEq, Eq, Debug)]
pub enum Unit {
    Plain,
    Seconds,
    Milliseconds,
    Microseconds,
    Nanoseconds,
    Picoseconds,
    Femtoseconds,
}

impl Unit {
    /// The unit in femtoseconds; 1 for a plain number.
    pub fn femtoseconds(self) -> Fraction
        ensures { result ≡ whole (femtoseconds_of self) }
    {
        match self {
            Unit::Plain => Fraction::whole(1),
            Unit::Seconds => Fraction::whole(1_000_000_000_000_000),
            Unit::Milliseconds => Fraction::whole(1_000_000_000_000),
            Unit::Microseconds => Fraction::whole(1_000_000_000),
            Unit::Nanoseconds => Fraction::whole(1_000_000),
            Unit::Picoseconds => Fraction::whole(1_000),
            Unit::Femtoseconds => Fraction::whole(1),
        }
    }
}
