//! What a seat knows of the table of its book. No value of these types is made: they stand in proofs alone.

use floor_core::BookState;
use std::collections::LinkedList;
use tester_types::Record;

/// What the opener's seat knows: how many shares were made, how many records each site has a place for, and what the
/// shares knew that have come back.
pub struct OpenerView {
    pub made: u64,
    pub places: LinkedList<u64>,
    pub ended: LinkedList<ShareView>,
}

/// What a share knows: its site, how many records each site has a place for, the records that were filed with it, and the
/// book as it was taken, while it is held.
pub struct ShareView {
    pub site: u64,
    pub places: LinkedList<u64>,
    pub records: LinkedList<Record>,
    pub held: Option<BookState>,
}

/// What a seat knows. One that is spent has given up what it knew.
pub enum View {
    Opener(OpenerView),
    Share(ShareView),
    Spent,
}
