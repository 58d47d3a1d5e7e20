//! One die at a socket, as it is played.

ghost use Rattle.std.specs.Prelude.{◌≡◌, ℕ, ◌+◌, ◌≤◌, length, take, drop, OnOk, IfOk, IfErr};
ghost use Rattle.cycle_run.specs.Setup.{IsSetUp, code_in, HasEnough};
ghost use Rattle.cycle_run.specs.Seat.{CanPlay, CanPlayAt, PlaysAt, StopsAt, PlaysSome, StopsIn, Keeps};
ghost use Rattle.cycle_run.specs.SeatLaws.{ready_less, plays_none, plays_more, stops_more, stops_short};

use crate::bench::Bench;
use crate::cycle::make_lent;
use crate::feed::Feed;
use crate::place::Place;
use crate::play::play_cycles;
use crate::player::Player;
use crate::setup::{Setup, Until};
use crate::stop::Stop;
use die_sim::Socket;
use edge_gen::Schedules;
use tester_types::Cycle;

/// Where a try stands between two cycles.
#[derive(Drop)]
pub struct Standing {
    /// How many cycles of the try are finished.
    pub number: u64,
    /// When the next one starts, in femtoseconds after the start of the try.
    pub time: u128,
    pub bench: Bench,
}

/// A die at a socket, and all that its cycles use, as they are lent.
#[derive(Drop)]
pub struct Seat<'a, K> {
    pub at: &'a mut Standing,
    pub schedules: &'a mut Schedules,
    pub socket: &'a mut K,
}

impl<'a, K: Socket> Player for Seat<'a, K> {
    ghost ready = { CanPlayAt K.told };

    ghost plays = { PlaysAt K.told };

    ghost stops = { StopsAt K.told };

    ghost done = { λ until seat enough. HasEnough until seat.at.now.bench.checker enough };

    fn play(&mut self, setup: &Setup, exec: u16, cycle: Cycle) -> Result<(), Stop> {
        let place = Place {
            exec,
            number: self.at.number,
            start: self.at.time,
            cycle,
        };
        match make_lent(
            setup,
            &mut self.at.bench,
            self.schedules,
            self.socket,
            place,
        ) {
            Ok(()) => {}
            Err(stop) => return Err(stop),
        }
        self.at.number += 1;
        self.at.time += u128::from(setup.code.table(cycle.table).period);
        Ok(())
    }

    fn is_done(&self, until: Until) -> bool {
        match until {
            Until::End => false,
            Until::FirstFail => self.at.bench.checker.total() > 0,
        }
    }

    ghost ready_less = { ready_less K.told };

    ghost plays_none = { plays_none K.told };

    ghost plays_more = { plays_more K.told };

    ghost stops_more = { stops_more K.told };

    ghost stops_short = { stops_short K.told };
}

/// Plays so many cycles of an executive at a socket, or fewer where there is enough, and answers how many.
pub fn play_at<'a, F: Feed, K: Socket>(
    setup: &Setup,
    feed: &mut F,
    at: &'a mut Standing,
    schedules: &'a mut Schedules,
    socket: &'a mut K,
    exec: u16,
    cycles: u64,
) -> Result<u64, Stop>
    requires set_up { IsSetUp setup.now }
    requires can { F.can (code_in setup.now) feed.old }
    requires some { cycles ≤ length (F.coming (code_in setup.now) feed.old) }
    requires ready { CanPlay setup.now cycles schedules.old (K.told socket.old) at.old }
    ensures plays { IfOk result (λ count. PlaysSome setup.now exec (F.coming (code_in setup.now) feed.old) cycles count
        (K.told socket.old) (K.told socket.new) at.old at.new) }
    ensures left { IfOk result (λ count. F.coming (code_in setup.now) feed.new
        ≡ drop count (F.coming (code_in setup.now) feed.old)) }
    ensures can { OnOk result (F.can (code_in setup.now) feed.new) }
    ensures ready { OnOk result ((more : ℕ)
        → CanPlay setup.now (more + cycles) schedules.old (K.told socket.old) at.old
        → CanPlay setup.now more schedules.new (K.told socket.new) at.new) }
    ensures stops { IfErr result (λ why. StopsIn setup.now exec (take cycles (F.coming (code_in setup.now) feed.old))
        (K.told socket.old) (K.told socket.new) at.old at.new why) }
    ensures keeps { Keeps setup.now schedules.old schedules.new (K.told socket.old) (K.told socket.new) }
    ensures lent { F.keeps feed.old feed.new }
{
    let mut seat = Seat {
        at,
        schedules,
        socket,
    };
    match play_cycles(setup, feed, &mut seat, exec, cycles) {
        Ok(count) => Ok(count),
        Err(stop) => Err(stop),
    }
}
