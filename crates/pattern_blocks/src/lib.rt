//! Reads PatternExec, PatternBurst, Pattern, MacroDefs and Procedures blocks by their forms (IEEE 1450-1999, clauses 16,
//! 17 and 22 to 24).
#![tactic(auto)]

mod body;
mod burst;
mod executive;

pub use body::{read_defs_block, read_pattern_block};
pub use burst::read_burst_block;
pub use executive::read_exec_block;
