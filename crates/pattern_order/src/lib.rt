//! Which patterns an executive runs, in running order, or the first fault of its names (IEEE 1450-1999, clauses 16 and
//! 17).
#![tactic(auto)]

mod bursts;
mod checking;
mod found;
mod meaning;
mod names;
mod order;
mod places;
mod playing;
mod walk;

pub use bursts::BurstNames;
pub use order::play_order;
pub use places::{Places, add_place, place_of};
pub use playing::{PlayOrder, PlayedPattern};
