//! The parts of a plan: which sites each has, and its plan.
#![tactic(auto)]

mod laws;
mod record;
mod sites;
mod text;

pub use laws::{numbers_of_part, part_is_plan, rows_of_site, sites_of_part};
pub use sites::{Sites, parts_needed};
pub use text::part_text;
