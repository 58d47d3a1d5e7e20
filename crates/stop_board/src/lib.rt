//! A board on which a desk asks sites to stop while they run in threads of their own. No call but `Board::new` takes
//! memory, none waits, and each answers always.
#![tactic(auto)]

mod asked;
mod board;
mod seats;
mod steps;
mod view;

pub use asked::AskedList;
pub use board::{Board, BoardEnd};
pub use seats::{DeskSeat, SiteSeat, SiteSeatList};
