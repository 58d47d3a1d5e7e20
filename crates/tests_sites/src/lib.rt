//! Known sites, books, lots and events, through the public calls.
#![tactic(auto)]

#[cfg(test)]
mod book_tests;
#[cfg(test)]
mod event_tests;
#[cfg(test)]
mod gates;
#[cfg(test)]
mod lot_tests;
#[cfg(test)]
mod many_dies;
#[cfg(test)]
mod sample;
#[cfg(test)]
mod shared_book_tests;
#[cfg(test)]
mod site_tests;
#[cfg(test)]
mod work_tests;
