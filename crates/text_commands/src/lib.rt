//! The commands on a STIL text: the numbers of its code, its dated cycles, their moments, and its code as a saved program or
//! as a flat STIL text.
#![tactic(auto)]

mod command;
mod commands;
mod few_cycles;
mod laws;

pub use command::{Command, command_of};
pub use commands::run_file;
pub use laws::{flat_by_numbers, saved_by_numbers};
