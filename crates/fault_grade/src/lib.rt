//! The fault grade of a program: for each single stuck-at fault of the plan's first die, the first cycle that finds it.
#![tactic(auto)]

mod die;
mod exec;
mod faults;
mod graded;
mod grading;
mod laws;
mod run;
mod search;
mod workers;

pub use die::{fault_count, first_net};
pub use graded::{Grade, GradeList, Graded};
pub use grading::{first_of, grade_run};
pub use laws::{first_is_of_trial, only_the_die_counts, runs_are_joined};
pub use workers::grade;
