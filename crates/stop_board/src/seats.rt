//! The desk's seat and the sites' seats: the rights to ask, to look, to poll and to finish.

ghost use Rattle.std.specs.Prelude.{◌≡◌, ◌+◌, ◌^◌, ◌<◌, ◌≤◌, true, false, slice_index};
ghost use Rattle.stop_board.specs.Steps.{asked_once_more};

use crate::board::Board;
use crate::steps::{Ask, Finish, Look, Poll};
use crate::view::View;
use atomic_table::Seat;
use std::marker::Model;
use tester_types::Items;
use text_bytes::MOST_SITES;

/// The word that counts the seats that have finished.
const FINISHED: usize = MOST_SITES;

/// The right to ask for stops and to see how many seats have finished. It is for one thread at a time.
#[derive(Drop)]
pub struct DeskSeat {
    pub(crate) seat: Seat<(), View>,
}

impl Model for DeskSeat {
    ghost use Rattle.stop_board.specs.Seats.{DeskFacts, desk_facts, IsDeskSeat};

    ghost Value = { DeskFacts };

    ghost view = { λ s. desk_facts s.seat.table_id s.seat.me.0 };

    ghost invariant = { λ s. IsDeskSeat s.seat.me };
}

/// The right of one site to poll for stops and to finish. It is for one thread at a time.
#[derive(Drop)]
pub struct SiteSeat {
    pub(crate) site: usize,
    pub(crate) seat: Seat<(), View>,
}

impl Model for SiteSeat {
    ghost use Rattle.stop_board.specs.Seats.{SiteFacts, site_facts, IsSiteSeat};

    ghost Value = { SiteFacts };

    ghost view = { λ s. site_facts s.seat.table_id s.seat.me.0 };

    ghost invariant = { λ s. IsSiteSeat s.seat.me s.site };
}

/// The seats of sites, in the sites' order.
pub type SiteSeatList = Items<SiteSeat>;

impl DeskSeat {
    /// Asks for one more stop at the site, in one step.
    pub fn ask(&mut self, board: &Board, site: u8)
        requires board { self.old.board ≡ board.now }
        requires site { site < self.old.sites }
        requires room { slice_index self.old.asked site < 2 ^ 63 }
        ensures { self.new ≡ record self.old { asked = asked_once_more self.old.asked site } }
    {
        board
            .table
            .shared
            .fetch_add::<Ask>(&mut self.seat, usize::from(site), 1);
    }

    /// The number of seats that have finished, by one load. It never falls.
    pub fn finished(&mut self, board: &Board) -> u64
        requires { self.old.board ≡ board.now }
        ensures later { self.old.looked ≤ result }
        ensures most { result ≤ self.old.sites }
        ensures seat { self.new ≡ record self.old { looked = result } }
    {
        board.table.shared.load::<Look>(&mut self.seat, FINISHED)
    }
}

impl SiteSeat {
    /// The number of stops that were asked for at this site, by one load. It never falls.
    pub fn poll(&mut self, board: &Board) -> u64
        requires { self.old.board ≡ board.now }
        ensures later { self.old.seen ≤ result }
        ensures seat { self.new ≡ record self.old { seen = result; polls = self.old.polls + 1 } }
    {
        board.table.shared.load::<Poll>(&mut self.seat, self.site)
    }

    /// Counts this seat among those that have finished, in one step.
    pub fn finish(&mut self, board: &Board)
        requires board { self.old.board ≡ board.now }
        requires once { self.old.finished ≡ false }
        ensures { self.new ≡ record self.old { finished = true } }
    {
        board
            .table
            .shared
            .fetch_add::<Finish>(&mut self.seat, FINISHED, 1);
    }
}
