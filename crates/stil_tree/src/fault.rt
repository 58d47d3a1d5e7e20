//! Why tokens are no statements.

ghost use Rattle.std.specs.Prelude.{◌≡◌};
ghost use Rattle.stil_tree.specs.declared.fault.TreeFault.TheVariants.{NoMemory};

use std::alloc::{AllocError, AllocFailed};

/// The first refusal of tokens from left to right, with the index of a token, or want of memory.
#[derive(Clone, Copy, PartialEq, Eq, Debug)]
pub enum TreeFault {
    NoMemory,
    /// The text ends inside a block: the innermost open `{`.
    OpenBlock(usize),
    /// A head is not finished at a `}` inside a block, or at the text's end: its first token.
    OpenStatement(usize),
    /// A `}` outside all blocks.
    StrayClose(usize),
    /// A `{` that opens a seventeenth level.
    TooDeep(usize),
}

impl From<AllocError> for TreeFault {
    ghost from_gives = { λ _ e. e ≡ NoMemory };

    fn from(_error: AllocError) -> TreeFault {
        TreeFault::NoMemory
    }
}

impl<T: Drop> From<AllocFailed<T>> for TreeFault {
    ghost from_gives = { λ _ e. e ≡ NoMemory };

    fn from(_error: AllocFailed<T>) -> TreeFault {
        TreeFault::NoMemory
    }
}
