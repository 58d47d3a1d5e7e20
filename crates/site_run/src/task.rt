//! What a tester hands its site for a poll.

use lot_plan::BoundPlan;
use pattern_mem::PatternMem;

/// What a tester hands its site for a poll, beside the socket.
#[derive(Drop)]
pub(crate) struct Task<'a, R> {
    pub rt: &'a R,
    pub mem: &'a PatternMem,
    pub plan: &'a BoundPlan,
    /// How often the site was asked to stop.
    pub stops: u64,
}
