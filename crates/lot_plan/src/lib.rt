//! The plan of a lot: read, and bound to a program and netlists.
#![tactic(auto)]

mod binding;
mod bindings;
mod bound_die;
mod bound_plan;
mod building;
mod groups;
mod names;
mod pin;
mod pins;
mod plan;
mod program_seen;
mod refusal;
mod rows;
mod skews;

pub use bound_plan::BoundPlan;
pub use plan::{FileList, Plan};
