//! The parts of a lot and of a grade: a plan cut into parts, the datalogs of the parts merged into the whole one, and the
//! same of grades.
#![tactic(auto)]

mod call;
mod cutting;
mod grade;
mod grades;
mod load;
mod merge;
mod names;
mod outcome;
mod refusal;
mod words;

pub use call::{USAGE, divide};
pub use outcome::{Outcome, out_of_memory};
pub use refusal::PartRefusal;
pub use tool_inputs::Status;
