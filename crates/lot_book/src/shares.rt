//! The shares of a book: the rights to file the records of one site, and to close the book.

ghost use Rattle.std.specs.Prelude.{◌≡◌};

use crate::view::View;
use atomic_table::Seat;
use floor_core::BookState;
use std::marker::Model;
use tester_types::Items;

/// A seat of the table in which a book stands.
pub(crate) type BookSeat = Seat<BookState, View>;

/// The right to file the records of one site. It is for one thread at a time. Contracts see it as the book that it is of,
/// its site, and the records that were filed with it.
#[derive(Drop)]
pub struct SiteShare {
    pub(crate) site: u8,
    pub(crate) seat: BookSeat,
}

impl Model for SiteShare {
    ghost use Rattle.std.specs.Prelude.{◌≡◌};
    ghost use Rattle.lot_book.specs.Rule.{as_share};
    ghost use Rattle.lot_book.specs.Steps.{IsShare};
    ghost use Rattle.lot_book.specs.Shares.{ShareFacts, share_facts};

    ghost Value = { ShareFacts };

    ghost view = { λ s. share_facts s.seat.table_id s.seat.me.0 };

    ghost invariant = { λ s. IsShare s.seat.me (as_share s.seat.me.0) × (s.site ≡ (as_share s.seat.me.0).site) };
}

/// The right to close a book, once all its shares have come back. Contracts see it as the book.
#[derive(Drop)]
pub struct Closer {
    pub(crate) seat: BookSeat,
}

impl Model for Closer {
    ghost use Rattle.lot_book.specs.Shares.{BookFacts, opener_facts, IsOpener};

    ghost Value = { BookFacts };

    ghost view = { λ c. opener_facts c.seat.table_id c.seat.me.0 };

    ghost invariant = { λ c. IsOpener c.seat.me };
}

/// The shares of a book, one for each site in order, and the right to close it.
#[derive(Drop)]
pub struct ShareList {
    pub closer: Closer,
    pub shares: Items<SiteShare>,
}

impl SiteShare {
    /// The site whose records it files.
    pub fn site(&self) -> u8
        ensures { result ≡ self.now.site }
    {
        self.site
    }
}
