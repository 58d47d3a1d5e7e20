//! The signals and groups of a text, and the signals for which references stand (IEEE 1450-1999, clauses 6, 14 and 15).
#![tactic(auto)]

mod begin;
mod building;
mod complete;
mod fault;
mod found;
mod graph;
mod groups;
mod items;
mod lexeme;
mod members;
mod places;
mod read;
mod refuse;
mod resolve;
mod settle;
mod signals;
mod table;
mod term;

pub use building::build;
pub use fault::RefFault;
pub use found::FoundSignals;
pub use items::{index_at, index_count, indexed};
pub use table::{SignalList, SignalTable};
