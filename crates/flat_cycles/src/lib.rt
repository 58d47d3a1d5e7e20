//! The cycles of a flat text are those of its code, and compiling it meets no fault but that something is too large.
#![tactic(auto)]

mod laws;

pub use laws::{compiling_is_fine, cycles_are_same, small_are_fine};
