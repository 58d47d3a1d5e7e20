//! The work of all sites, in threads beside each other.

ghost use Rattle.std.specs.Prelude.{◌≡◌, ◌<◌, ℕ, length, slice_index_or};
ghost use Rattle.floor_core.specs.Book.{planned};
ghost use Rattle.tester_run.specs.Jobs.{IsNew, IsDone};
ghost use Rattle.tester_run.specs.declared.jobs.Job.{Job};

use crate::jobs::Job;
use crate::work::work_at;
use die_sim::Socket;
use lot_book::Book;
use lot_plan::BoundPlan;
use pattern_mem::PatternMem;
use std::alloc::Global;
use std::sync::Wait;
use std::thread::{Threads, for_each_mut};
use stop_board::Board;
use tester_types::Gate;
use text_bytes::MOST_SITES;

/// Does the work of each job, each site's in a thread of its own as far as they can be made.
pub(crate) fn work_all<R: Threads + Wait + Sync, K: Socket + Send, G: Gate>(
    rt: &R,
    alloc: Global,
    mem: &PatternMem,
    plan: &BoundPlan,
    book: &Book,
    board: &Board,
    gate: &G,
    jobs: &mut [Job<K>],
)
    requires one_program { plan.now.program ≡ mem.now.code }
    requires book { book.now.places ≡ planned plan.now.rows }
    requires new { (k : ℕ) (d : Job K) → k < length jobs.old → IsNew mem.now plan.now book.now
        (slice_index_or jobs.old k d).share (slice_index_or jobs.old k d).seat (slice_index_or jobs.old k d).pass }
    requires board { (k : ℕ) (d : Job K) → k < length jobs.old → (slice_index_or jobs.old k d).seat.board ≡ board.now }
    ensures all { length jobs.new ≡ length jobs.old }
    ensures done { (k : ℕ) (d : Job K) → k < length jobs.old → IsDone K.told plan.now
        (slice_index_or jobs.old k d).socket (slice_index_or jobs.new k d).socket
        (slice_index_or jobs.old k d).share (slice_index_or jobs.new k d).share
        (slice_index_or jobs.old k d).seat (slice_index_or jobs.new k d).seat (slice_index_or jobs.new k d).failed }
{
    for_each_mut(
        rt,
        jobs,
        MOST_SITES,
        &|_: usize, job: &mut Job<K>|
            requires one_program { plan.now.program ≡ mem.now.code }
            requires book { book.now.places ≡ planned plan.now.rows }
            requires board { job.now.seat.board ≡ board.now }
            requires new { IsNew mem.now plan.now book.now job.now.share job.now.seat job.now.pass }
            ensures done { IsDone K.told plan.entry.now job.entry.now.socket job.exit.now.socket
                job.entry.now.share job.exit.now.share job.entry.now.seat job.exit.now.seat job.exit.now.failed }
        { work_one(rt, alloc, mem, plan, book, board, gate, job) },
    );
}

/// Does the work of a job. A site without dies has none.
fn work_one<R: Threads + Wait + Sync, K: Socket + Send, G: Gate>(
    rt: &R,
    alloc: Global,
    mem: &PatternMem,
    plan: &BoundPlan,
    book: &Book,
    board: &Board,
    gate: &G,
    job: &mut Job<K>,
)
    requires one_program { plan.now.program ≡ mem.now.code }
    requires book { book.now.places ≡ planned plan.now.rows }
    requires board { job.old.seat.board ≡ board.now }
    requires new { IsNew mem.now plan.now book.now job.old.share job.old.seat job.old.pass }
    ensures done { IsDone K.told plan.now job.old.socket job.new.socket job.old.share job.new.share
        job.old.seat job.new.seat job.new.failed }
{
    if plan.dies(job.share.site()) == 0 {
        job.seat.finish(board);
        return;
    }
    let Some(pass) = job.pass.take() else {
        unreachable!()
    };
    let done = work_at(
        rt,
        alloc,
        mem,
        pass,
        plan,
        book,
        &mut job.share,
        board,
        &mut job.seat,
        &mut job.socket,
        gate,
    );
    job.failed = done.is_err();
}
