//! The typed data of a whole text.

use crate::body::PatBody;
use crate::executive::{BurstList, ExecDeclList};
use crate::scan::ScanBlockList;
use crate::signal::{GroupBlockList, SignalDeclList};
use crate::timing::TimingBlockList;
use crate::variable::{SelectorList, SpecBlockList};
use tester_types::{Items, Text};

/// A named body of MacroDefs or Procedures.
#[derive(Drop)]
pub struct BodyDef {
    pub name: Text,
    pub body: PatBody,
}

/// Such bodies in text order.
pub type BodyDefList = Items<BodyDef>;

/// A MacroDefs or Procedures block (IEEE 1450-1999, clause 24); its name is empty where it has none.
#[derive(Drop)]
pub struct DefBlock {
    pub name: Text,
    pub bodies: BodyDefList,
}

/// Such blocks in text order.
pub type DefBlockList = Items<DefBlock>;

/// A Pattern block (IEEE 1450-1999, clause 23).
#[derive(Drop)]
pub struct Pattern {
    pub name: Text,
    pub body: PatBody,
}

/// The Pattern blocks in text order, no name twice.
pub type PatternList = Items<Pattern>;

/// All blocks of a text by their kinds, each kind in text order.
#[derive(Drop)]
pub struct Blocks {
    pub signals: SignalDeclList,
    pub groups: GroupBlockList,
    pub specs: SpecBlockList,
    pub selectors: SelectorList,
    pub timings: TimingBlockList,
    pub scans: ScanBlockList,
    pub macros: DefBlockList,
    pub procedures: DefBlockList,
    pub patterns: PatternList,
    pub bursts: BurstList,
    pub executives: ExecDeclList,
}
