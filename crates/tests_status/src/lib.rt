//! The status that no case of data can bring about, through the public calls.
#![tactic(auto)]

#[cfg(test)]
mod status_tests;
