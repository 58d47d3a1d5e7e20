//! The book of a lot behind a lock: the sites' threads file their records into it, each with a share of its own. No call
//! but `Book::new` takes memory, and `Book::file` alone waits.
#![tactic(auto)]

mod book;
mod shares;
mod steps;
mod turn;
mod view;

pub use book::Book;
pub use shares::{Closer, ShareList, SiteShare};
