//! Known grades, and workers that wait for each other, through the public calls.
#![tactic(auto)]

#[cfg(test)]
mod grade_tests;
