//! Joins the tokens of a STIL text into statements and blocks.
#![tactic(auto)]

mod block;
mod builder;
mod fault;
mod grammar;
mod laws;
mod stmt;

pub use block::enclosing;
pub use fault::TreeFault;
pub use grammar::forest;
pub use laws::{forest_or_fault, one_block, one_forest};
pub use stmt::{Stmt, StmtList};

#[cfg(test)]
mod slow;
#[cfg(test)]
mod slow_faults;
#[cfg(test)]
mod tests;
