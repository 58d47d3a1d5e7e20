//! The rows of a lot's plan: what its records say, each by its form, or the first refusal.
#![tactic(auto)]

mod book;
mod fault;
mod kinds;
mod laws;
mod read;
mod row;
mod subject;
mod tally;
mod words;
mod written;

pub use fault::PlanFault;
pub use laws::{first_refused, no_fault_in_plan, one_record_list};
pub use read::read_rows;
pub use row::{BinRow, BindRow, DieRow, Ending, FaultRow, LotRow, PlanRows, Row, SkewRow, StopRow};
