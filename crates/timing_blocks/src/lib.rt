//! Reads Spec, Selector and Timing blocks by their forms (IEEE 1450-1999, clauses 18 and 19).
#![tactic(auto)]

mod selectors;
mod timings;
mod variables;
mod waveforms;

pub use selectors::read_selector_block;
pub use timings::read_timing_block;
pub use variables::read_spec_block;
