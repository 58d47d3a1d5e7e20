//! Scan structures (IEEE 1450-1999, clause 20).

use crate::name::{NameRef, Named};
use tester_types::{Items, Text};

/// `cell`, or `cell[first..last]`, which names one cell for each index.
pub type CellDecl = NameRef;

/// Cells from scan-in to scan-out.
pub type CellDeclList = Items<CellDecl>;

/// `ScanCells cell cell ..;`.
#[derive(Debug, Drop)]
pub struct CellsDecl {
    pub cells: CellDeclList,
    /// The statement's line, from 1.
    pub line: u32,
}

/// A statement of a chain.
#[derive(Debug, Drop)]
pub enum ChainStmt {
    /// `ScanLength n;`, in cells.
    Length(u32),
    /// `ScanIn name;`: the signal at the first cell.
    In(Named),
    /// `ScanOut name;`: the signal at the last cell.
    Out(Named),
    /// `ScanCells cell cell ..;`.
    Cells(CellsDecl),
}

/// Such statements in text order, each kind at most once.
pub type ChainStmtList = Items<ChainStmt>;

/// `ScanChain name { .. }`.
#[derive(Debug, Drop)]
pub struct ChainDecl {
    pub name: Text,
    pub stmts: ChainStmtList,
    /// The statement's line, from 1.
    pub line: u32,
}

/// Chains in text order.
pub type ChainDeclList = Items<ChainDecl>;

/// A ScanStructures block; its name is empty where it has none.
#[derive(Debug, Drop)]
pub struct ScanBlock {
    pub name: Text,
    pub chains: ChainDeclList,
}

/// The ScanStructures blocks in text order.
pub type ScanBlockList = Items<ScanBlock>;
