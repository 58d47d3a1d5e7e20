//! A run of up to 64 faulty dies over the executives of a code: for each of them the first failing cycle.
#![tactic(auto)]

mod board;
mod cycle;
mod judge;
mod looks;
mod player;
mod run;

pub use run::first_cycles;
