//! Sets of places, in which the next member costs a word of 64 and not a step a place.
#![tactic(auto)]

mod bits;

pub use bits::{Bits, lowest, rest};
