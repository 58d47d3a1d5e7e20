//! Lines of a text, one after another, and what it is that one isn't as it should be.
#![tactic(auto)]

mod fault;
mod lines;
mod printed;
mod words;

pub use fault::LineFault;
pub use lines::Lines;
pub use printed::is_printed;
pub use words::{is_named, last_word};
