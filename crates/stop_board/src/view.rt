//! What a seat knows of its board. No value of these types is made: they stand in proofs alone.

use std::collections::LinkedList;

/// What the desk's seat knows: how many sites have a seat, how often a stop was asked for at each site, the greatest
/// number of finished seats that was seen, and what the seats knew that have come back.
pub struct DeskView {
    pub made: u64,
    pub asked: LinkedList<u64>,
    pub looked: u64,
    pub ended: LinkedList<SiteView>,
}

/// What a site's seat knows: its site, the greatest number of asks that it saw, how often it polled, and whether it has
/// finished.
pub struct SiteView {
    pub site: u64,
    pub seen: u64,
    pub polls: u64,
    pub finished: bool,
}

/// What a seat knows. One that is spent has given up what it knew.
pub enum View {
    Desk(DeskView),
    Site(SiteView),
    Spent,
}
