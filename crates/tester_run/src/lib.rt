//! The work of the sites of a lot: of one site in a thread of its own, and of all sites beside each other.
#![tactic(auto)]

mod asking;
mod beside;
mod jobs;
mod lot;
mod work;
mod working;

pub use lot::run_lot;
pub use work::site_work;
