//! Why tokens are no data.

ghost use Rattle.std.specs.Prelude.{◌≡◌};
ghost use Rattle.pat_read.specs.declared.fault.DataFault.TheVariants.{NoMemory};

use std::alloc::{AllocError, AllocFailed};
use stil_form::{FormFault, FormKind};

/// Why tokens are no data of an assignment.
#[derive(Clone, Copy, Debug, PartialEq, Eq)]
pub enum DataFault {
    NoMemory,
    /// A token that no item may have.
    Shape,
    /// A form of data that this profile leaves out.
    LeftOut,
    /// A unit that is repeated more than 1,048,576 times.
    OutOfRange,
}

impl From<AllocError> for DataFault {
    ghost from_gives = { λ _ fault. fault ≡ NoMemory };

    fn from(_error: AllocError) -> DataFault {
        DataFault::NoMemory
    }
}

impl<T: Drop> From<AllocFailed<T>> for DataFault {
    ghost from_gives = { λ _ fault. fault ≡ NoMemory };

    fn from(_error: AllocFailed<T>) -> DataFault {
        DataFault::NoMemory
    }
}

impl DataFault {
    ghost use Rattle.pat_read.specs.Fault.{fault_at};

    /// The same as the fault of the statement with this first token.
    pub fn at(self, first: u32) -> FormFault
        ensures { result ≡ fault_at self first }
    {
        match self {
            DataFault::NoMemory => FormFault::NoMemory,
            DataFault::Shape => FormFault::Refused(FormKind::Shape, first),
            DataFault::LeftOut => FormFault::Refused(FormKind::LeftOut, first),
            DataFault::OutOfRange => FormFault::Refused(FormKind::OutOfRange, first),
        }
    }
}
