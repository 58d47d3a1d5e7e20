//! 64 dies as they are played.
ghost use Rattle.std.specs.Prelude.{◌≡◌, ◌≢◌, ◌==◌, ℕ, ◌<◌, ◌≤◌, None, Some, length, slice_index_or};
ghost use Rattle.std.specs.Int.{bit_at};
ghost use Rattle.word_run.specs.Player.{CanPlay, PlaysLanes};
ghost use Rattle.word_run.specs.PlayerLaws.{ready_less, plays_none, plays_more};

use crate::board::Board;
use crate::cycle::play_cycle;
use cycle_run::{Player, Setup, Stop, Until};
use edge_gen::Schedules;
use tester_types::Cycle;

/// 64 dies between two cycles.
#[derive(Drop)]
pub(crate) struct WordPlayer {
    /// How many cycles of the try are finished.
    pub(crate) number: u64,
    pub(crate) board: Board,
    pub(crate) schedules: Schedules,
    /// The lanes in which no fail was found.
    pub(crate) alive: u64,
    /// The first failing cycle of each lane, none where no fail was found.
    pub(crate) firsts: Vec<Option<u64>>,
}

/// A bit of a word.
fn has_bit(word: u64, lane: usize) -> bool
    requires { lane < 64 }
    ensures { result ≡ (bit_at word lane == 1) }
{
    (word >> lane) % 2 == 1
}

/// This cycle is the first failing one of a lane, if it is among these.
fn put_first(firsts: &mut Vec<Option<u64>>, lane: usize, failed: u64, number: u64)
    requires few { lane < 64 }
    requires within { lane < length firsts.old.items }
    ensures count { length firsts.new.items ≡ length firsts.old.items }
    ensures found { bit_at failed lane ≡ 1 → slice_index_or firsts.new.items lane None ≡ Some number }
    ensures kept { bit_at failed lane ≡ 0
        → slice_index_or firsts.new.items lane None ≡ slice_index_or firsts.old.items lane None }
    ensures others { (k : ℕ) → k ≢ lane
        → slice_index_or firsts.new.items k None ≡ slice_index_or firsts.old.items k None }
{
    if has_bit(failed, lane) {
        firsts[lane] = Some(number);
    }
}

/// This cycle is the first failing one of these lanes, of which there may be none.
fn put_firsts(firsts: &mut Vec<Option<u64>>, failed: u64, number: u64)
    requires few { length firsts.old.items ≤ 64 }
    ensures count { length firsts.new.items ≡ length firsts.old.items }
    ensures found { (k : ℕ) → k < length firsts.old.items → bit_at failed k ≡ 1
        → slice_index_or firsts.new.items k None ≡ Some number }
    ensures others { (k : ℕ) → k < length firsts.old.items → bit_at failed k ≡ 0
        → slice_index_or firsts.new.items k None ≡ slice_index_or firsts.old.items k None }
{
    if failed == 0 {
        return;
    }
    for lane in 0..firsts.len() {
        put_first(firsts, lane, failed, number);
    }
}

impl Player for WordPlayer {
    ghost ready = { CanPlay };

    ghost plays = { PlaysLanes };

    ghost stops = { λ _ _ _ _ _ _. Unit {0} };

    ghost done = { λ _ player enough. enough ≡ (player.alive == 0) };

    fn play(&mut self, setup: &Setup, exec: u16, cycle: Cycle) -> Result<(), Stop> {
        let left = match play_cycle(
            &mut self.board,
            &mut self.schedules,
            setup,
            cycle,
            self.alive,
        ) {
            Ok(left) => left,
            Err(_) => return Err(Stop::NoMemory),
        };
        put_firsts(&mut self.firsts, self.alive & !left, self.number);
        self.alive = left;
        self.number += 1;
        Ok(())
    }

    fn is_done(&self, until: Until) -> bool {
        self.alive == 0
    }

    ghost ready_less = { ready_less };

    ghost plays_none = { plays_none };

    ghost plays_more = { plays_more };

    ghost stops_more = { λ _ _ _ _ _ _ _ _ _ _ _. tt };

    ghost stops_short = { λ _ _ _ _ _ _ _. tt };
}
