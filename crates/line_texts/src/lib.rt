//! Texts that are statements one after another: where each is a list of pieces, the text has their tokens, and the
//! tokens are these statements.
#![tactic(auto)]

mod laws;

pub use laws::{pieces_are_read, said_parses};
