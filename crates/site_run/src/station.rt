//! What a try runs on, and what its cycles use.

use die_sim::DieImage;
use edge_gen::Schedules;
use pattern_mem::{PatternMem, PoolPass};
use std::alloc::Global;

/// What a try runs on, the same in all its cycles.
#[derive(Drop)]
pub(crate) struct Ground<'a> {
    pub alloc: Global,
    pub mem: &'a PatternMem,
    pub image: &'a DieImage,
    /// By how much the events of each signal are moved at this site.
    pub skews: &'a [i64],
}

/// What the cycles of a try use at their site.
#[derive(Drop)]
pub(crate) struct Station<'a, R, K> {
    pub rt: &'a R,
    pub pass: &'a mut PoolPass,
    pub schedules: &'a mut Schedules,
    pub socket: &'a mut K,
}
