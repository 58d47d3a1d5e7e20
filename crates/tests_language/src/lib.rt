//! What no text shows of what is built of it: that it crosses threads.
#![tactic(auto)]

#[cfg(test)]
mod thread_tests;
