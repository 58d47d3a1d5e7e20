//! Reads Signals and SignalGroups blocks by their forms (IEEE 1450-1999, clauses 14 and 15).
#![tactic(auto)]

mod groups;
mod signals;

pub use groups::read_groups_block;
pub use signals::read_signals_block;
