//! Reads ScanStructures blocks by their forms (IEEE 1450-1999, clause 20).
#![tactic(auto)]

mod cells;
mod chain;

pub use chain::read_scan_block;
