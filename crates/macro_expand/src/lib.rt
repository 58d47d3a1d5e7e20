//! The flat tree of a pattern: macros, procedures, arguments and shifts resolved, or the first fault (IEEE 1450-1999,
//! clauses 21 to 24).
#![tactic(auto)]

mod arguments;
mod assigning;
mod bodies;
mod characters;
mod dealing;
mod expanding;
mod giving;
mod lane;
mod naming;
mod pairing;
mod placing;
mod reference;
mod references;
mod refusing;
mod rules;
mod scope;
mod shifting;
mod signal_set;
mod standing;
mod taking;
mod trouble;
mod walk;
mod walking;

pub use arguments::Arguments;
pub use bodies::Bodies;
pub use expanding::expand;
pub use refusing::fault_of;
pub use scope::{BlockTitles, PatternScope};
