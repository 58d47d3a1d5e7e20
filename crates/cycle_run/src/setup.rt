//! What is the same in all cycles of a try.

use crate::lent::Lent;
use die_sim::DieImage;
use packed_code::Code;

/// How far cycles are played.
#[derive(Clone, Copy)]
pub enum Until {
    /// Up to the last one.
    End,
    /// Up to the first fail.
    FirstFail,
}

/// What a try is played with, the same in all its cycles.
#[derive(Drop)]
pub struct Setup<'a> {
    pub code: &'a Code,
    pub image: &'a DieImage,
    /// By how much the events of each signal are moved.
    pub skews: &'a [i64],
    pub until: Until,
    /// Moments of its cycles that are held, if any are.
    pub lent: Option<&'a Lent>,
}
