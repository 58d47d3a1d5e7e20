//! Why a listing isn't put whole.

ghost use Rattle.std.specs.Prelude.{◌≡◌};
ghost use Rattle.code_listing.specs.declared.fault.ListFault.TheVariants as fault;

use std::alloc::AllocError;
use tester_types::{NoMemory, SinkFault};

/// Why a listing isn't put whole.
#[derive(Clone, Copy, Debug, PartialEq, Eq)]
pub enum ListFault {
    NoMemory,
    /// A put failed or took nothing.
    Sink(SinkFault),
}

impl From<SinkFault> for ListFault {
    ghost from_gives = { λ f e. e ≡ fault.Sink f };

    fn from(fault: SinkFault) -> ListFault {
        ListFault::Sink(fault)
    }
}

impl From<AllocError> for ListFault {
    ghost from_gives = { λ _ e. e ≡ fault.NoMemory };

    fn from(_error: AllocError) -> ListFault {
        ListFault::NoMemory
    }
}

impl From<NoMemory> for ListFault {
    ghost from_gives = { λ _ e. e ≡ fault.NoMemory };

    fn from(_want: NoMemory) -> ListFault {
        ListFault::NoMemory
    }
}
