//! What a lot on a flat text prints beside one on its source.
#![tactic(auto)]

mod laws;

pub use laws::flat_lot;
