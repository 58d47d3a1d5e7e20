//! Strobes: which looks of a cycle fail.
//!
//! A [`Checker`] is shown each moment of each cycle with the levels after it. It judges edge looks by the
//! level of their instant, and windows from their opening up to the signal's next look or the cycle's end.
#![tactic(auto)]

mod ahead;
mod checker;
mod judge;
mod laws;
mod look;
mod run;
mod tally;
mod windows;

pub use ahead::Ahead;
pub use checker::Checker;
pub use laws::{sensed_levels_decide, window_extent};
pub use look::{is_edge, opened};
