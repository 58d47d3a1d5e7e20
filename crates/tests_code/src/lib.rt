//! Known saved programs, read, written and kept in memory through the public calls: what no command shows of them.
#![tactic(auto)]

#[cfg(test)]
mod memory_tests;
#[cfg(test)]
mod programs;
#[cfg(test)]
mod saved_tests;
