//! Why a code has no flat text.

ghost use Rattle.std.specs.Prelude.{◌≡◌};
ghost use Rattle.flat_stil.specs.declared.fault.FlatFault.TheVariants as fault;

use std::alloc::{AllocError, AllocFailed};

/// Why a code has no flat text.
#[derive(Clone, Copy, Debug, PartialEq, Eq)]
pub enum FlatFault {
    NoMemory,
    /// The text would have more than 16,777,216 bytes.
    TooLong,
    /// The text would be refused, as where its loops nest deeper than the braces of a text may.
    TooFlat,
}

impl From<AllocError> for FlatFault {
    ghost from_gives = { λ _ e. e ≡ fault.NoMemory };

    fn from(_error: AllocError) -> FlatFault {
        FlatFault::NoMemory
    }
}

impl<T: Drop> From<AllocFailed<T>> for FlatFault {
    ghost from_gives = { λ _ e. e ≡ fault.NoMemory };

    fn from(_error: AllocFailed<T>) -> FlatFault {
        FlatFault::NoMemory
    }
}
