//! The names of a scan chain's cells, which all that have the chain share.
#![tactic(auto)]

mod names;

pub use names::CellNames;
