//! The flat STIL text of a code, line by line, and the blocks that it says.
#![tactic(auto)]

mod laws;

pub use laws::instructions_nest;
