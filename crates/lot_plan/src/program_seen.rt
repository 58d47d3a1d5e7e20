//! The program that a plan was bound to, which clauses alone read.

ghost use Rattle.std.specs.Prelude.{◌≡◌};
ghost use Rattle.std.specs.Borrow.{ftrue};
ghost use Rattle.packed_code.specs.Program.{Program};

use packed_code::Code;
use std::marker::Model;

/// A program that was seen. It takes no memory.
#[derive(Drop)]
pub struct ProgramSeen {
    pub ghost program: { Program },
}

impl Model for ProgramSeen {
    ghost also_owns = { λ _. ftrue };
}

// It owns nothing.
unsafe impl Send for ProgramSeen {}

unsafe impl Sync for ProgramSeen {}

impl ProgramSeen {
    /// That of a code.
    pub(crate) fn of(_code: &Code) -> ProgramSeen
        ensures { result.program ≡ _code.now }
    {
        ProgramSeen {}
    }
}
