//! Everything that one site of a tester does: cycles at its socket, batches of them, tries and touchdowns.
#![tactic(auto)]

mod arrival;
mod batch;
mod fault;
mod feed;
mod laws;
mod run;
mod site;
mod state;
mod station;
mod task;
mod trial;

pub use fault::SiteFault;
pub use laws::{contacts_are_in_batches, polls_are_taped};
pub use site::{BatchEnd, Site};
pub use state::SiteState;
