//! Reads the blocks of a STIL text: its statements at the top level by their keywords (IEEE 1450-1999, clauses 8 to 24).
#![tactic(auto)]

mod block;
mod kept;
mod keyword;
mod laws;
mod read;
mod text;
mod top;

pub use block_forms::Declared;
pub use laws::blocks_are_of_one_text;
pub use pattern_blocks::{read_burst_block, read_defs_block, read_exec_block, read_pattern_block};
pub use scan_blocks::read_scan_block;
pub use signal_blocks::{read_groups_block, read_signals_block};
pub use text::read_blocks;
pub use timing_blocks::{read_selector_block, read_spec_block, read_timing_block};
