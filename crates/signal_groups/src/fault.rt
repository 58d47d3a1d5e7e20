//! Why a reference stands for no signals.

ghost use Rattle.std.specs.Prelude.{◌≡◌};
ghost use Rattle.signal_groups.specs.declared.fault.RefFault.TheVariants.{NoMemory};

use std::alloc::{AllocError, AllocFailed};

/// Why a reference stands for no signals.
#[derive(Clone, Copy, Debug, PartialEq, Eq)]
pub enum RefFault {
    NoMemory,
    /// A text that is no group expression.
    Shape,
    /// A name of neither a signal nor a group, or an index without a signal.
    UnknownName,
}

impl From<AllocError> for RefFault {
    ghost from_gives = { λ _ fault. fault ≡ NoMemory };

    fn from(_error: AllocError) -> RefFault {
        RefFault::NoMemory
    }
}

impl<T: Drop> From<AllocFailed<T>> for RefFault {
    ghost from_gives = { λ _ fault. fault ≡ NoMemory };

    fn from(_error: AllocFailed<T>) -> RefFault {
        RefFault::NoMemory
    }
}
