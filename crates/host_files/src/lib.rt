//! The outside of the program as the operating system has it: files as a shelf, a writer as a sink, files whose names say that
//! a site is to stop as a desk, and the words of the command line.
#![tactic(auto)]

mod command_line;
mod desk;
mod shelf;
mod sink;

pub use command_line::words;
pub use desk::FileDesk;
pub use shelf::FileShelf;
pub use sink::WriterSink;

/// How many bytes of output are written at a time.
pub const HELD_BACK: usize = 65_536;
