//! The parts of a grade, and the whole one.
#![tactic(auto)]

mod laws;
mod log;
mod merge;
mod part;
mod reading;
mod said;
mod told;

pub use laws::{one_log, part_text_is_log, parts_are_grade, parts_are_taken};
pub use log::GradeLog;
pub use merge::put_merged_grade;
pub use part::grade_part;
pub use told::Told;
