//! Cycles of a compiled program and the dated moments inside one.

use crate::items::Items;
use crate::wave::{Look, Push};

/// One cycle of an executive.
#[derive(Clone, Copy, Debug, PartialEq, Eq)]
pub struct Cycle {
    /// When it starts, in femtoseconds after the executive's first cycle.
    pub start: u128,
    /// The number of its waveform table.
    pub table: u16,
    /// The number of its row of characters.
    pub row: u32,
    /// 0, or 1 more than how many scan characters the first scan-out signal took before.
    pub mark: u32,
}

/// Signals with the drives that they get, signals in declared order.
pub type PushList = Items<(u16, Push)>;

/// Signals with the looks that are made at them, signals in declared order.
pub type LookList = Items<(u16, Look)>;

/// An instant of a cycle at which some signal has an event.
#[derive(Debug, Drop)]
pub struct Moment {
    /// In femtoseconds.
    pub at: u128,
    pub drives: PushList,
    pub looks: LookList,
}

/// Moments in rising order.
pub type MomentList = Items<Moment>;
