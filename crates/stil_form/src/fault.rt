//! Why a statement doesn't have its form.

ghost use Rattle.std.specs.Prelude.{◌≡◌};
ghost use Rattle.stil_form.specs.declared.fault.FormFault.TheVariants.{NoMemory};

use std::alloc::{AllocError, AllocFailed};

/// The kinds of faults of block forms.
#[derive(Clone, Copy, Debug, PartialEq, Eq)]
pub enum FormKind {
    /// The first statement is no header.
    NoHeader,
    /// An allowed keyword with another form.
    Shape,
    /// A form that this profile leaves out.
    LeftOut,
    /// A number or a count beyond its limit.
    OutOfRange,
    /// Something that may stand once stands twice.
    Twice,
    /// There is no executive.
    NoExec,
}

/// Why a statement was not read.
#[derive(Clone, Copy, Debug, PartialEq, Eq)]
pub enum FormFault {
    NoMemory,
    /// The kind of the fault, and the index of the first token of the statement that has it.
    Refused(FormKind, u32),
}

impl From<AllocError> for FormFault {
    ghost from_gives = { λ _ e. e ≡ NoMemory };

    fn from(_e: AllocError) -> FormFault {
        FormFault::NoMemory
    }
}

impl<T: Drop> From<AllocFailed<T>> for FormFault {
    ghost from_gives = { λ _ e. e ≡ NoMemory };

    fn from(_e: AllocFailed<T>) -> FormFault {
        FormFault::NoMemory
    }
}
