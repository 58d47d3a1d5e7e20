//! Bursts and executives (IEEE 1450-1999, clauses 16 and 17).

use crate::name::{Named, NamedList};
use tester_types::{Items, Text};

/// What a name in a PatternBurst is the name of.
#[derive(Clone, Copy, Debug, PartialEq, Eq)]
pub enum BurstWord {
    SignalGroups,
    MacroDefs,
    Procedures,
    ScanStructures,
    /// An entry of a PatList: a pattern or a burst.
    Entry,
}

/// A name in a PatternBurst.
#[derive(Debug, Drop)]
pub struct BurstItem {
    pub word: BurstWord,
    pub name: Text,
    /// The statement's line, from 1.
    pub line: u32,
}

/// The names of a burst in text order.
pub type BurstItemList = Items<BurstItem>;

/// A PatternBurst block.
#[derive(Debug, Drop)]
pub struct Burst {
    pub name: Text,
    pub items: BurstItemList,
}

/// The PatternBurst blocks in text order, no name twice.
pub type BurstList = Items<Burst>;

/// A PatternExec block.
#[derive(Debug, Drop)]
pub struct ExecDecl {
    /// Empty where it has none.
    pub name: Text,
    pub categories: NamedList,
    pub selector: Option<Named>,
    pub timing: Option<Named>,
    pub burst: Named,
    /// The statement's line, from 1.
    pub line: u32,
}

/// The PatternExec blocks in text order.
pub type ExecDeclList = Items<ExecDecl>;
