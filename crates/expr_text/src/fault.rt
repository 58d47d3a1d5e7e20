//! Why a text is no expression, or an expression has no value.

ghost use Rattle.std.specs.Prelude.{◌≡◌};
ghost use Rattle.expr_text.specs.declared.fault.ExprFault.TheVariants.{NoMemory};

use std::alloc::{AllocError, AllocFailed};

/// Why a text is no expression, or an expression has no value; or want of memory.
#[derive(Clone, Copy, PartialEq, Eq, Debug)]
pub enum ExprFault {
    NoMemory,
    /// The text spells no expression.
    BadExpr,
    /// A number on the way is not from -(2^127 - 1) to 2^127 - 1.
    OutOfRange,
    /// A name stands for no value.
    UnknownName,
    /// A divisor is 0.
    ZeroDivisor,
}

impl From<AllocError> for ExprFault {
    ghost from_gives = { λ _ e. e ≡ NoMemory };

    fn from(_error: AllocError) -> ExprFault {
        ExprFault::NoMemory
    }
}

impl<T: Drop> From<AllocFailed<T>> for ExprFault {
    ghost from_gives = { λ _ e. e ≡ NoMemory };

    fn from(_error: AllocFailed<T>) -> ExprFault {
        ExprFault::NoMemory
    }
}
