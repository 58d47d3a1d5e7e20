//! Value change dumps: the text of vars and of a tape, written and read.
#![tactic(auto)]

mod adding;
mod dump;
mod laws;
mod line;
mod name;
mod names;
mod put;
mod read;
mod reader;

pub use adding::add_call;
pub use dump::Dump;
pub use laws::one_dump;
pub use name::is_plain;
pub use names::VarList;
pub use put::{put_calls, put_definitions, put_numbered_var, put_start, put_var};
pub use read::{DumpFault, read_dump};
