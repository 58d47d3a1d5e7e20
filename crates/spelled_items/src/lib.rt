//! Data of assignments and the cells of chains: what is read of their tokens is what the tokens spell
//! (IEEE 1450-1999, clauses 20 and 21).
#![tactic(auto)]

mod laws;

pub use laws::{cells_are_refused, cells_are_spelled, data_are_refused, data_are_spelled};
