//! A cycle of a try.

use tester_types::Cycle;

/// A cycle of a try.
#[derive(Clone, Copy)]
pub struct Place {
    /// The number of its executive.
    pub exec: u16,
    /// Its number in the try, from 0.
    pub number: u64,
    /// When it starts, in femtoseconds after the start of the try.
    pub start: u128,
    /// The cycle as its executive has it.
    pub cycle: Cycle,
}
