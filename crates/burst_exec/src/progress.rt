//! What is carried from one executive to the next.

ghost use Rattle.std.specs.Prelude.{◌≡◌};
ghost use Rattle.stil_ast.specs.declared.blocks.Blocks.{Blocks};
ghost use Rattle.burst_exec.specs.Carried.{IsCarried};

use crate::chain_book::ChainBook;
use crate::joined::JoinedBodies;
use std::alloc::Global;

/// The bodies that were joined and the chains that were made so far, and how much the executives so far have.
#[derive(Drop)]
pub(crate) struct Progress<'a> {
    pub(crate) macros: JoinedBodies<'a>,
    pub(crate) procedures: JoinedBodies<'a>,
    pub(crate) scans: ChainBook<'a>,
    /// How many waves, as far as 32 bits count.
    pub(crate) waves: u32,
    /// How many statements they walk and signals they assign.
    pub(crate) walked: u32,
}

impl<'a> Progress<'a> {
    /// Before the first executive.
    pub(crate) fn new(alloc: Global) -> Progress<'a>
        ensures carried { (blocks : Blocks) → IsCarried blocks result }
        ensures no_waves { result.waves ≡ 0 }
        ensures nothing_walked { result.walked ≡ 0 }
    {
        Progress {
            macros: JoinedBodies::new(alloc),
            procedures: JoinedBodies::new(alloc),
            scans: ChainBook::new(alloc),
            waves: 0,
            walked: 0,
        }
    }
}
