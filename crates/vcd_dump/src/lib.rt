//! The value change dump of the first try of a site's first die: its tape, and the text of it.
#![tactic(auto)]

mod execs;
mod fault;
mod laws;
mod recorder;
mod tape;
mod write;

pub use fault::TapeFault;
pub use laws::first_tries_are_taped;
pub use tape::tape_of;
pub use vcd_text::{Dump, DumpFault, VarList, one_dump, read_dump};
pub use write::write_dump;
