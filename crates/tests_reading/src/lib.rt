//! What no contract of the readers says: that texts are read, and known faults.
#![tactic(auto)]

#[cfg(test)]
mod block_tests;
#[cfg(test)]
mod body_tests;
#[cfg(test)]
mod form_tests;
