//! Laws of parts: the datalogs of the parts of a plan, merged, are a datalog of the whole plan, and so with grades.
#![tactic(auto)]

mod laws;

pub use laws::{
    grades_are_read, merge_grade_of_runs, merge_of_runs, merged_is_lot, merged_is_one_text,
    merged_without_cuts, one_division, runs_are_read, runs_of_grade_parts,
};
