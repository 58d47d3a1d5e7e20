//! The board: a word for each site and one more, which the desk's thread and the sites' threads share.

ghost use Rattle.std.specs.Prelude.{◌≡◌, ◌<◌, ◌≤◌, [], All, IfOk, OnOk, length, slice_index, take};
ghost use Rattle.std.specs.Slots.{slots_items, slots_len, IsFull};
ghost use Rattle.text_bytes.specs.Limits.{most_sites};
ghost use Rattle.stop_board.specs.Rule.{as_desk};
ghost use Rattle.stop_board.specs.Seats.{new_desk, new_seats, made_desk, after_return, IsDeskSeat};

use crate::asked::AskedList;
use crate::seats::{DeskSeat, SiteSeat, SiteSeatList};
use crate::steps::{End, Law, Make};
use crate::view::View;
use atomic_table::{Closed, Seat, Table};
use std::alloc::{AllocError, Global};
use std::marker::Model;
use tester_types::{Items, NoMemory};
use text_bytes::MOST_SITES;

/// The words on which stops are asked for and counted. It is shared by reference, and its calls never wait.
#[derive(Drop)]
pub struct Board {
    pub(crate) table: Table<(), View, (), Law, Global>,
}

impl Model for Board {
    ghost use Rattle.std.specs.Prelude.{◌≡◌, ◌+◌};
    ghost use Rattle.text_bytes.specs.Limits.{most_sites};
    ghost use Rattle.atomic_table.specs.Seated.{TableId};

    ghost Value = { TableId };

    ghost view = { λ b. b.table.shared.table_id };

    ghost invariant = { λ b. (b.table.shared.table_id.words ≡ most_sites + 1) × (b.table.shared.table_id.slots ≡ 0) };
}

/// What a board leaves: how often a stop was asked for at each site.
#[derive(Debug, Drop)]
pub struct BoardEnd {
    pub asked: AskedList,
}

impl Board {
    /// A board for so many sites, the desk's seat, and a seat for each site from 0 in order. It is an `Err` only for want
    /// of memory.
    pub fn new(alloc: Global, sites: u8) -> Result<(Board, DeskSeat, SiteSeatList), NoMemory>
        requires { sites ≤ most_sites }
        ensures desk { IfOk result (λ made. made.1 ≡ new_desk made.0 sites) }
        ensures seats { IfOk result (λ made. made.2 ≡ new_seats made.0 sites) }
    {
        let (table, mut seat) = Table::of_words(alloc, &[0; MOST_SITES + 1], &())?;
        let board = Board { table };
        let seats = board.seats(alloc, &mut seat, sites)?;
        Ok((board, DeskSeat { seat }, Items::from_vec(seats)))
    }

    // A seat for each site, of the desk's seat, which has made none.
    fn seats(
        &self,
        alloc: Global,
        desk: &mut Seat<(), View>,
        sites: u8,
    ) -> Result<Vec<SiteSeat>, AllocError>
        requires sites { sites ≤ most_sites }
        requires board { desk.old.table_id ≡ self.now }
        requires desk { desk.old.me ≡ (made_desk 0, []) }
        ensures seats { IfOk result (λ seats. seats.items ≡ new_seats self.now sites) }
        ensures board { OnOk result (desk.new.table_id ≡ self.now) }
        ensures desk { OnOk result (desk.new.me ≡ (made_desk sites, [])) }
    {
        let mut seats = Vec::with_capacity(alloc, usize::from(sites))?;
        for site in 0..sites {
            let seat = self.table.shared.split_seat::<Make>(desk);
            seats.push(SiteSeat {
                site: usize::from(site),
                seat,
            })?;
        }
        Ok(seats)
    }

    /// Ends the board, once all its seats have come back. What was asked for is final then.
    pub fn close(self, desk: DeskSeat, seats: SiteSeatList) -> BoardEnd
        requires desk { desk.board ≡ self }
        requires seats { All (λ seat. seat.board ≡ self) seats }
        requires all { length seats ≡ desk.sites }
        ensures asked { result.asked ≡ desk.asked }
        ensures seen { All (λ seat. seat.seen ≤ slice_index result.asked seat.site) seats }
    {
        let DeskSeat { seat } = desk;
        let seat = self.take_in(seat, seats.into_vec());
        let Board { table } = self;
        let closed = table.close_with(seat);
        let words = first_words(&closed);
        closed.free();
        BoardEnd {
            asked: AskedList::of_words(words),
        }
    }

    // Joins the sites' seats to the desk's.
    fn take_in(&self, mut desk: Seat<(), View>, seats: Vec<SiteSeat>) -> Seat<(), View>
        requires board { desk.table_id ≡ self.now }
        requires desk { IsDeskSeat desk.me }
        requires seats { All (λ seat. seat.board ≡ self.now) seats.items }
        ensures board { result.table_id ≡ self.now }
        ensures desk { IsDeskSeat result.me }
        ensures taken { as_desk result.me.0 ≡ after_return (as_desk desk.me.0) seats.items }
    {
        for SiteSeat { site: _, seat } in seats {
            self.table.shared.join_seat::<End>(&mut desk, seat);
        }
        desk
    }
}

// The words 0 to 15 of a table that was closed.
fn first_words(closed: &Closed<(), Global>) -> [u64; MOST_SITES]
    requires { (most_sites < slots_len closed.now.words) × IsFull closed.now.words }
    ensures { result ≡ take most_sites (slots_items closed.now.words) }
{
    let mut words = [0; MOST_SITES];
    for site in 0..MOST_SITES {
        words[site] = closed.word(site);
    }
    words
}
