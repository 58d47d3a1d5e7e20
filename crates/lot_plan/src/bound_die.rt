//! A die of a bound plan, as it is stored.

use die_sim::{DieImage, StuckAt};
use plan_rows::StopRow;
use tester_types::{Items, Text};

/// A fault of a die.
#[derive(Clone, Copy, Debug, PartialEq, Eq)]
pub struct DieFault {
    pub stuck: StuckAt,
    /// In how many first tries it is active; in all where there is none.
    pub tries: Option<u8>,
}

/// A die with all that its tries take.
#[derive(Drop)]
pub struct BoundDie {
    pub name: Text,
    /// The number of its netlist's file.
    pub file: usize,
    /// For each try, from the first on.
    pub images: Items<DieImage>,
    pub stops: Items<StopRow>,
}
