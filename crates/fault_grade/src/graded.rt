//! What a grade says of a die.

use tester_types::Items;

/// A single stuck-at fault, and the first cycle that finds it.
#[derive(Clone, Copy, Debug, PartialEq, Eq)]
pub struct Graded {
    /// The number of the net.
    pub net: u32,
    /// The level at which it is stuck: 1 where it is true.
    pub value: bool,
    /// The number of the cycle in its try, from 0; none where no fail comes.
    pub first: Option<u64>,
}

/// Faults by rising number of their nets, first stuck at 0 and then at 1.
pub type GradeList = Items<Graded>;

/// The grade of a die.
#[derive(Debug, Drop)]
pub struct Grade {
    /// The first failing cycle of the die without a fault; none where it passes.
    pub good: Option<u64>,
    pub faults: GradeList,
}
