//! The tape of a known try against what a socket is told, and known dumps that are read, through the public calls.
#![tactic(auto)]

#[cfg(test)]
mod dump_tests;
#[cfg(test)]
mod vcd_tests;
