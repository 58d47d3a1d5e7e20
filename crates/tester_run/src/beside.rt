//! The asking of the desk beside the work of all sites.

ghost use Rattle.std.specs.Prelude.{◌≡◌, ◌+◌, ◌<◌, ◌≤◌, ℕ, true, length, replicate, slice_index, slice_index_or};
ghost use Rattle.std.specs.Thread.{IsSync, IsSend};
ghost use Rattle.text_bytes.specs.Limits.{most_sites};
ghost use Rattle.floor_core.specs.Book.{planned};
ghost use Rattle.tester_run.specs.Jobs.{IsNew, IsDone};
ghost use Rattle.tester_run.specs.declared.jobs.Job.{Job};

use crate::asking::ask_all;
use crate::jobs::Job;
use crate::working::work_all;
use die_sim::Socket;
use lot_book::Book;
use lot_plan::BoundPlan;
use pattern_mem::PatternMem;
use std::alloc::Global;
use std::sync::Wait;
use std::thread::{Threads, join_mut};
use stop_board::{Board, DeskSeat};
use tester_types::{Desk, Gate};

/// Asks the desk in another thread while the jobs are done in this one and its forks. Where no thread can be made, the
/// work ends before the asking.
pub(crate) fn work_beside<R: Threads + Wait + Sync, K: Socket + Send, D: Desk, G: Gate>(
    rt: &R,
    alloc: Global,
    mem: &PatternMem,
    plan: &BoundPlan,
    book: &Book,
    board: &Board,
    gate: &G,
    jobs: &mut [Job<K>],
    desk: &mut D,
    seat: &mut DeskSeat,
    sites: u8,
)
    requires one_program { plan.now.program ≡ mem.now.code }
    requires book { book.now.places ≡ planned plan.now.rows }
    requires new { (k : ℕ) (d : Job K) → k < length jobs.old → IsNew mem.now plan.now book.now
        (slice_index_or jobs.old k d).share (slice_index_or jobs.old k d).seat (slice_index_or jobs.old k d).pass }
    requires seats { (k : ℕ) (d : Job K) → k < length jobs.old → (slice_index_or jobs.old k d).seat.board ≡ board.now }
    requires board { seat.old.board ≡ board.now }
    requires sites { (seat.old.sites ≡ sites) × (sites ≤ most_sites) }
    requires none { seat.old.asked ≡ replicate most_sites 0 }
    ensures all { length jobs.new ≡ length jobs.old }
    ensures done { (k : ℕ) (d : Job K) → k < length jobs.old → IsDone K.told plan.now
        (slice_index_or jobs.old k d).socket (slice_index_or jobs.new k d).socket
        (slice_index_or jobs.old k d).share (slice_index_or jobs.new k d).share
        (slice_index_or jobs.old k d).seat (slice_index_or jobs.new k d).seat (slice_index_or jobs.new k d).failed }
    ensures asked { D.asked desk.new ≡ true }
    ensures board { seat.new.board ≡ seat.old.board }
    ensures sites { seat.new.sites ≡ seat.old.sites }
    ensures most { (site : ℕ) → slice_index seat.new.asked site + D.stops desk.old site ≤ D.stops desk.new site }
{
    let mut asking = ||
        requires { IsSync R.row × IsSend D.row × (seat.now.board ≡ board.now) × (seat.now.sites ≡ sites)
            × (sites ≤ most_sites) × (seat.now.asked ≡ replicate most_sites 0) }
        ensures { (D.asked desk.exit.now ≡ true) × (seat.exit.now.board ≡ seat.entry.now.board)
            × (seat.exit.now.sites ≡ seat.entry.now.sites)
            × ((site : ℕ)
            → slice_index seat.exit.now.asked site + D.stops desk.entry.now site ≤ D.stops desk.exit.now site) }
    { ask_all(rt, board, seat, desk, sites) };
    let mut working = ||
        requires { IsSync R.row × IsSend K.row × IsSync G.row
            × (plan.now.program ≡ mem.now.code) × (book.now.places ≡ planned plan.now.rows)
            × ((k : ℕ) (d : Job K) → k < length jobs.now → IsNew mem.now plan.now book.now
            (slice_index_or jobs.now k d).share (slice_index_or jobs.now k d).seat (slice_index_or jobs.now k d).pass)
            × ((k : ℕ) (d : Job K) → k < length jobs.now → (slice_index_or jobs.now k d).seat.board ≡ board.now) }
        ensures { (length jobs.exit.now ≡ length jobs.entry.now)
            × ((k : ℕ) (d : Job K) → k < length jobs.entry.now → IsDone K.told plan.entry.now
            (slice_index_or jobs.entry.now k d).socket (slice_index_or jobs.exit.now k d).socket
            (slice_index_or jobs.entry.now k d).share (slice_index_or jobs.exit.now k d).share
            (slice_index_or jobs.entry.now k d).seat (slice_index_or jobs.exit.now k d).seat
            (slice_index_or jobs.exit.now k d).failed) }
    { work_all(rt, alloc, mem, plan, book, board, gate, jobs) };
    join_mut(rt, &mut asking, &mut working);
}
