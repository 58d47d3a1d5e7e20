//! The statements of a code's flat text are read as the blocks that they say.
#![tactic(auto)]

mod laws;

pub use laws::said_is_read;
