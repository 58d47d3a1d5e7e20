//! The printed text of a lot's records: what the tries of each die found, and how many dies each bin has.
#![tactic(auto)]

mod cells;
mod fails;
mod laws;
mod letters;
mod lot;
mod records;
mod summary;
mod totals;
mod trials;

pub use laws::sound_is_printable;
pub use lot::print_lot;
pub use records::print_record;
pub use summary::{fail_count, print_totals};

#[cfg(test)]
mod tests;
