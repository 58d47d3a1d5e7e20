//! The core of a test floor: the book in which the records of all sites are filed, and the laws of all that may happen at
//! the sites of a lot, in any order.
#![tactic(auto)]

mod book;
mod laws;

pub use book::BookState;
pub use laws::{alone_law, book_law, records_law, totals_law};
