//! The parts of a code: its signals, chains and instructions.

use crate::instr::Instr;
use cell_names::CellNames;
use tester_types::{Direction, Items, Text};

/// A signal.
#[derive(Debug, Drop)]
pub struct CodeSignal {
    pub name: Text,
    pub direction: Direction,
}

/// Signals in declared order.
pub type CodeSignalList = Items<CodeSignal>;

/// A scan chain: its name, the number of its scan-out signal, how many cells it has, and the names of
/// the cells, from the one next to the scan input on.
#[derive(Drop)]
pub struct CodeChain {
    pub name: Text,
    pub out: u16,
    pub length: u32,
    pub cells: CellNames,
}

/// Chains in order.
pub type CodeChainList = Items<CodeChain>;

/// Instructions in order.
pub type InstrList = Items<Instr>;
