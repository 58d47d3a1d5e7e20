//! What was read of the statements so far.

ghost use Rattle.std.specs.Prelude.{◌≡◌, []};
ghost use Rattle.stil_read.specs.Reads.{blocks_by, AreNamesOf};
ghost use Rattle.stil_read.specs.Top.{no_blocks};

use block_forms::Declared;
use std::alloc::Global;
use stil_ast::{
    Burst, DefBlock, ExecDecl, GroupBlock, Pattern, ScanBlock, Selector, SignalDecl, SpecBlock,
    TimingBlock,
};

/// The blocks of each kind, in text order.
#[derive(Drop)]
pub(crate) struct Lists {
    pub(crate) signals: Vec<SignalDecl>,
    pub(crate) groups: Vec<GroupBlock>,
    pub(crate) specs: Vec<SpecBlock>,
    pub(crate) selectors: Vec<Selector>,
    pub(crate) timings: Vec<TimingBlock>,
    pub(crate) scans: Vec<ScanBlock>,
    pub(crate) macros: Vec<DefBlock>,
    pub(crate) procedures: Vec<DefBlock>,
    pub(crate) patterns: Vec<Pattern>,
    pub(crate) bursts: Vec<Burst>,
    pub(crate) executives: Vec<ExecDecl>,
}

/// The names of what may be declared once, under the titles of their blocks.
#[derive(Drop)]
pub(crate) struct Names<'a> {
    pub(crate) tables: Declared<'a>,
    pub(crate) chains: Declared<'a>,
    pub(crate) macros: Declared<'a>,
    pub(crate) procedures: Declared<'a>,
    pub(crate) patterns: Declared<'a>,
    pub(crate) bursts: Declared<'a>,
    pub(crate) selectors: Declared<'a>,
}

impl Lists {
    /// No blocks.
    pub(crate) fn new(alloc: Global) -> Lists
        ensures { blocks_by result ≡ no_blocks }
    {
        Lists {
            signals: Vec::new(alloc),
            groups: Vec::new(alloc),
            specs: Vec::new(alloc),
            selectors: Vec::new(alloc),
            timings: Vec::new(alloc),
            scans: Vec::new(alloc),
            macros: Vec::new(alloc),
            procedures: Vec::new(alloc),
            patterns: Vec::new(alloc),
            bursts: Vec::new(alloc),
            executives: Vec::new(alloc),
        }
    }
}

impl<'a> Names<'a> {
    /// No names.
    pub(crate) fn new(alloc: Global) -> Names<'a>
        ensures { AreNamesOf [] [] [] [] [] [] [] result }
    {
        Names {
            tables: Declared::new(alloc),
            chains: Declared::new(alloc),
            macros: Declared::new(alloc),
            procedures: Declared::new(alloc),
            patterns: Declared::new(alloc),
            bursts: Declared::new(alloc),
            selectors: Declared::new(alloc),
        }
    }
}
