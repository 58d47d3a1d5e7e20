//! What is printed of a code: its numbers, its dated cycles, and the moments of its cycles.
#![tactic(auto)]

mod check;
mod cycles;
mod fault;
mod listing;
mod moments;
mod room;

pub use check::{cycle_total, put_check};
pub use fault::ListFault;
pub use listing::{put_cycles, put_events};
