//! Why a text wasn't read.

ghost use Rattle.std.specs.Prelude.{◌≡◌};
ghost use Rattle.part_lines.specs.declared.fault.LineFault.TheVariants as fault;

use std::alloc::{AllocError, AllocFailed};

/// Why a text wasn't read.
#[derive(Clone, Copy, Debug, PartialEq, Eq)]
pub enum LineFault {
    /// There was no memory.
    NoMemory,
    /// The first line, counted from 1, up to which no text of the kind begins as this one does.
    Line(u64),
}

impl From<AllocError> for LineFault {
    ghost from_gives = { λ _ e. e ≡ fault.NoMemory };

    fn from(_: AllocError) -> Self {
        LineFault::NoMemory
    }
}

impl<T: Drop> From<AllocFailed<T>> for LineFault {
    ghost from_gives = { λ _ e. e ≡ fault.NoMemory };

    fn from(_: AllocFailed<T>) -> Self {
        LineFault::NoMemory
    }
}
