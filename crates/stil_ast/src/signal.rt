//! Signals and groups (IEEE 1450-1999, clauses 14 and 15).

use crate::name::{IndexRange, Quoted};
use tester_types::{Direction, Items, Text};

/// `name dir;`, or `name[first..last] dir;`, which declares one signal for each index.
#[derive(Debug, Drop)]
pub struct SignalDecl {
    pub name: Text,
    pub range: Option<IndexRange>,
    pub direction: Direction,
    /// The statement's line, from 1.
    pub line: u32,
}

/// The declarations of all Signals blocks, in text order.
pub type SignalDeclList = Items<SignalDecl>;

/// `name = 'text';`.
#[derive(Debug, Drop)]
pub struct GroupDecl {
    pub name: Text,
    pub text: Quoted,
    /// The statement's line, from 1.
    pub line: u32,
}

/// Groups in text order.
pub type GroupDeclList = Items<GroupDecl>;

/// A SignalGroups block; its name is empty where it has none.
#[derive(Debug, Drop)]
pub struct GroupBlock {
    pub name: Text,
    pub groups: GroupDeclList,
}

/// The SignalGroups blocks in text order.
pub type GroupBlockList = Items<GroupBlock>;
