//! 64 dies of one netlist at once, each with a fault of its own: the levels of a net in all of them are two words.
#![tactic(auto)]

mod board;
mod capture;
mod clocking;
mod dies;
mod drives;
mod faults;
mod flat;
mod gates;
mod nets;
mod settling;
mod wiring;
mod word;

pub use dies::DieWords;
pub use word::Word;
