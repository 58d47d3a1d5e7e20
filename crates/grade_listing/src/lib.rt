//! The printed text of a fault grade: the good die, each fault with its first failing cycle, and how many are found.
#![tactic(auto)]

mod listing;

pub use listing::print_grade;
