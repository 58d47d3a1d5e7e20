//! Executives: which patterns each runs, with which tables and chains, and the flat trees of these patterns; or the
//! first fault of executives in text order (IEEE 1450-1999, clauses 16 to 18).
#![tactic(auto)]

mod building;
mod chain_book;
mod exec;
mod joined;
mod progress;
mod running;
mod scoping;
mod staging;
mod trees;

pub use building::executives;
pub use exec::{Exec, ExecList, ExecParts};
