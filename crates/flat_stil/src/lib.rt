//! From a code to a flat STIL text: one without macros, expressions, groups and shifts, with the loops of the code.
#![tactic(auto)]

mod fault;
mod flattening;
mod names;
mod numbers;
mod order;
mod patterns;
mod rows;
mod sheet;
mod signals;
mod tables;
mod text;

pub use fault::FlatFault;
pub use flattening::flat;
pub use names::has_plain_names;
pub use text::FlatText;
