//! The book: one place behind a turn, for the records of all sites.

ghost use Rattle.std.specs.Prelude.{◌≡◌, ◌<◌, ◌≤◌, [], ◌∷◌, ◌++◌, All, IfOk, OnOk, length, slice_index};
ghost use Rattle.plan_rows.specs.Rows.{sites_of};
ghost use Rattle.floor_core.specs.Book.{planned, places_in, at_site};
ghost use Rattle.lot_book.specs.Rule.{as_opener};
ghost use Rattle.lot_book.specs.Shares.{new_shares, made_opener, after_return};
ghost use Rattle.lot_book.specs.declared.view.View.TheVariants.{Opener};

use crate::shares::{BookSeat, Closer, ShareList, SiteShare};
use crate::steps::{End, Law, Make};
use crate::turn;
use crate::view::View;
use atomic_table::{Refused, Table};
use floor_core::BookState;
use lot_plan::BoundPlan;
use std::alloc::{AllocError, Global};
use std::marker::Model;
use std::sync::Wait;
use tester_types::{Items, NoMemory, Record};

/// The book of a lot. Threads share it by reference. Contracts see it as which book it is, and how many records each site
/// has a place for.
#[derive(Drop)]
pub struct Book {
    pub(crate) table: Table<BookState, View, BoundPlan, Law, Global>,
}

impl Model for Book {
    ghost use Rattle.std.specs.Prelude.{◌≡◌};
    ghost use Rattle.floor_core.specs.Book.{planned};
    ghost use Rattle.lot_book.specs.Shares.{BookFacts, book_facts};

    ghost Value = { BookFacts };

    ghost view = { λ b. book_facts b.table.shared.table_id (planned b.table.shared.key.rows) };

    ghost invariant = { λ b. (b.table.shared.table_id.words ≡ 1) × (b.table.shared.table_id.slots ≡ 1) };
}

impl Book {
    /// A book without records, with a place for each planned die of each site, and a share for each site from 0 in order.
    /// It is an `Err` only for want of memory.
    pub fn new(alloc: Global, plan: &BoundPlan) -> Result<(Book, ShareList), NoMemory>
        ensures places { IfOk result (λ made. made.0.places ≡ planned plan.now.rows) }
        ensures closer { IfOk result (λ made. made.1.closer ≡ made.0) }
        ensures shares { IfOk result (λ made. made.1.shares ≡ new_shares made.0 (sites_of plan.now.rows)) }
    {
        let state = BookState::new(alloc, plan)?;
        let mut slots = Vec::with_capacity(alloc, 1)?;
        slots.push(state)?;
        let (table, mut opener) = match Table::new(alloc, &[0], slots, plan) {
            Ok(made) => made,
            Err(Refused { slots: _ }) => return Err(NoMemory),
        };
        let book = Book { table };
        let shares = book.shares(alloc, &mut opener, plan.sites())?;
        let list = ShareList {
            closer: Closer { seat: opener },
            shares: Items::from_vec(shares),
        };
        Ok((book, list))
    }

    /// A share for each of so many sites, of the opener's seat, which has made none.
    fn shares(
        &self,
        alloc: Global,
        opener: &mut BookSeat,
        sites: u8,
    ) -> Result<Vec<SiteShare>, AllocError>
        requires book { opener.old.table_id ≡ self.now.table }
        requires opener { opener.old.me ≡ (made_opener self.now.places 0, []) }
        ensures shares { IfOk result (λ shares. shares.items ≡ new_shares self.now sites) }
        ensures book { OnOk result (opener.new.table_id ≡ self.now.table) }
        ensures opener { OnOk result (opener.new.me ≡ (made_opener self.now.places sites, [])) }
    {
        let mut shares = Vec::with_capacity(alloc, usize::from(sites))?;
        for site in 0..sites {
            let seat = self.table.shared.split_seat::<Make>(opener);
            shares.push(SiteShare { site, seat })?;
        }
        Ok(shares)
    }

    /// Files a record with a share. It waits until it has the turn. It takes no memory. It is called once a die, and stands
    /// as a function of its own so that a profile tells what it takes.
    #[inline(never)]
    pub fn file<R: Wait>(&self, rt: &R, share: &mut SiteShare, entry: Record)
        requires book { share.old.book ≡ self.now }
        requires site { entry.site ≡ share.old.site }
        requires die { entry.die ≡ length share.old.records }
        requires planned { entry.die < slice_index self.now.places entry.site }
        ensures { share.new ≡ record share.old { records = share.old.records ++ entry ∷ [] } }
    {
        turn::file(rt, self, &mut share.seat, entry);
    }

    /// Ends the book, once all its shares have come back.
    pub fn close(self, shares: ShareList) -> BookState
        requires closer { shares.closer ≡ self }
        requires shares { All (λ share. share.book ≡ self) shares.shares }
        requires all { length shares.shares ≡ length self.places }
        ensures places { places_in result ≡ self.places }
        ensures records { All (λ share. (at_site result share.site).records ≡ share.records) shares.shares }
    {
        let ShareList { closer, shares } = shares;
        let Closer { seat } = closer;
        let seat = self.take_in(seat, shares.into_vec());
        let Book { table } = self;
        let mut closed = table.close_with(seat);
        let state = closed.take(0);
        closed.free();
        state
    }

    /// Joins shares to the opener's seat.
    fn take_in(&self, mut opener: BookSeat, shares: Vec<SiteShare>) -> BookSeat
        requires book { opener.table_id ≡ self.now.table }
        requires opener { opener.me ≡ (Opener (as_opener opener.me.0), []) }
        requires shares { All (λ share. share.book ≡ self.now) shares.items }
        ensures book { result.table_id ≡ self.now.table }
        ensures taken { result.me ≡ (Opener (after_return (as_opener opener.me.0) shares.items), []) }
    {
        for SiteShare { site: _, seat } in shares {
            self.table.shared.join_seat::<End>(&mut opener, seat);
        }
        opener
    }
}
