//! The blocks of a flat text have no fault of signals, and of executives none but that something is too large.
#![tactic(auto)]

mod laws;

pub use laws::{executives_are_fine, few_are_fine, names_are_fine};
