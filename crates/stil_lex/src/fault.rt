//! Why a text has no tokens.

ghost use Rattle.std.specs.Prelude.{◌≡◌};
ghost use Rattle.stil_lex.specs.declared.fault.LexFault.TheVariants.{NoMemory};

use std::alloc::{AllocError, AllocFailed};

/// The fault of a text with the smallest place, or want of memory.
#[derive(Clone, Copy, PartialEq, Eq, Debug)]
pub enum LexFault {
    NoMemory,
    /// At this place stands a byte that no token and no gap may hold.
    BadByte(usize),
    /// The quote at this place has no end.
    OpenQuote(usize),
    /// The comment or annotation at this place has no end.
    OpenComment(usize),
}

impl From<AllocError> for LexFault {
    ghost from_gives = { λ _ e. e ≡ NoMemory };

    fn from(_error: AllocError) -> LexFault {
        LexFault::NoMemory
    }
}

impl<T: Drop> From<AllocFailed<T>> for LexFault {
    ghost from_gives = { λ _ e. e ≡ NoMemory };

    fn from(_error: AllocFailed<T>) -> LexFault {
        LexFault::NoMemory
    }
}
