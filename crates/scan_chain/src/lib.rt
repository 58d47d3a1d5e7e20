//! The scan chains of an executive, and the data of a Shift (IEEE 1450-1999, clauses 20, 21 and 24).
#![tactic(auto)]

mod building;
mod chain;
mod checking;
mod found;
mod laws;
mod making;
mod outs;
mod shift;

pub use building::{build, build_named, scans_of};
pub use chain::{Chains, ScanChain};
pub use laws::chains_are_short;
pub use shift::{ColumnList, column, column_place, passes};
