//! What a listing needs of memory beforehand.

ghost use Rattle.std.specs.Prelude.{IfOk, length};
ghost use Rattle.code_listing.specs.Room.{Fits};

use packed_code::Code;
use std::alloc::{AllocError, Global};

/// A byte for each signal, and no skew for each.
#[derive(Drop)]
pub(crate) struct Room {
    pub(crate) row: Vec<u8>,
    pub(crate) skews: Vec<i64>,
}

impl Room {
    /// Room for the signals of a code.
    pub(crate) fn new(alloc: Global, code: &Code) -> Result<Room, AllocError>
        ensures { IfOk result (λ room. Fits (length code.now.signals) room) }
    {
        let signals = usize::from(code.signals());
        let row = vec![in alloc; 0; signals]?;
        let skews = vec![in alloc; 0; signals]?;
        Ok(Room { row, skews })
    }
}
