//! From executives to code that keeps their loops, or the first executive that can't be compiled (IEEE 1450-1999,
//! clauses 16, 18 and 22).
#![tactic(auto)]

mod building;
mod chains;
mod compiling;
mod counting;
mod fault;
mod inside;
mod output;
mod refusing;
mod signals;
mod sizes;
mod state;
mod trees;
mod trouble;
mod waves;
mod writing;

pub use compiling::compile;
pub use counting::cycles;
pub use fault::{VectorFault, WriteError};
pub use trees::write;
