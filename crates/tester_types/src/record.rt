//! What a tester records of a die: fails, verdicts and tries.

use crate::items::Items;
use crate::level::Level;
use crate::wave::Look;

/// A look that found another level than it wanted.
#[derive(Clone, Copy, Debug, PartialEq, Eq)]
pub struct Fail {
    /// The number of the executive, from 0.
    pub exec: u16,
    /// The number of the cycle in its try, from 0.
    pub cycle: u64,
    /// When, in femtoseconds after the start of the try.
    pub at: u128,
    /// The signal's number in declared order, from 0.
    pub signal: u16,
    pub want: Look,
    pub seen: Level,
    /// The mark of the cycle.
    pub mark: u32,
}

/// Fails in their order.
pub type FailList = Items<Fail>;

/// Who stopped a try.
#[derive(Clone, Copy, Debug, PartialEq, Eq)]
pub enum By {
    Plan,
    /// The desk, with the number of stops that it had said.
    Desk(u64),
}

/// How a try ended.
#[derive(Clone, Copy, Debug, PartialEq, Eq)]
pub enum Verdict {
    Pass,
    /// The executive that has fails.
    Fail(u16),
    /// The batch before which it was stopped.
    Stopped(u64, By),
    /// The instant, in femtoseconds, at which the socket lost contact.
    Contact(u128),
}

/// One try of a die.
#[derive(Debug, Drop)]
pub struct Trial {
    /// From 1.
    pub number: u8,
    /// How many cycles were finished.
    pub cycles: u64,
    /// How many fails there were.
    pub fails: u64,
    /// The first of them.
    pub kept: FailList,
    pub verdict: Verdict,
}

/// Tries in order.
pub type TrialList = Items<Trial>;

/// All tries of a die in one touchdown.
#[derive(Debug, Drop)]
pub struct Record {
    pub site: u8,
    /// The number of the die among those of its site, from 0.
    pub die: u16,
    pub trials: TrialList,
}
