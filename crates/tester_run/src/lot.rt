//! The work of all sites of a lot.

ghost use Rattle.std.specs.Prelude.{◌≡◌, ℕ, ◌+◌, ◌≤◌, ◌++◌, true, All, IfOk, OnOk, length, slice_index};
ghost use Rattle.text_bytes.specs.Limits.{most_sites};
ghost use Rattle.plan_rows.specs.Rows.{sites_of};
ghost use Rattle.floor_core.specs.Book.{at_site, planned};
ghost use Rattle.stop_board.specs.Seats.{new_desk};
ghost use Rattle.tester_run.specs.Jobs.{shares_of, seats_of, sockets_of, AreNew, AreDone};
ghost use Rattle.tester_run.specs.Lot.{AreOfLot, AreLeft, said_since};

use crate::beside::work_beside;
use crate::jobs::{Job, any_failed, make_jobs, take_apart};
use die_sim::{Socket, SocketBox};
use floor_core::BookState;
use lot_book::{Book, Closer, ShareList};
use lot_plan::BoundPlan;
use pattern_mem::{PassList, PatternMem};
use std::alloc::Global;
use std::sync::Wait;
use std::thread::Threads;
use stop_board::{Board, DeskSeat, SiteSeatList};
use tester_types::{Desk, Gate, Items, NoMemory};

/// Does the work of all sites of a plan, each at the socket of its number and in a thread of its own as far as threads can
/// be made, while the desk is asked for stops. Want of memory at one site is answered once all have ended; fewer sockets
/// may be left then. It may wait for the sites' gates, the memory and the book.
pub fn run_lot<R: Threads + Wait + Sync, D: Desk, G: Gate>(
    rt: &R,
    alloc: Global,
    mem: &PatternMem,
    passes: PassList,
    plan: &BoundPlan,
    sockets: &mut Vec<SocketBox>,
    desk: &mut D,
    gate: &G,
) -> Result<BookState, NoMemory>
    requires one_program { plan.now.program ≡ mem.now.code }
    requires sites { sites_of plan.now.rows ≤ most_sites }
    requires passes { All (λ pass. pass ≡ mem.now) passes }
    requires enough { sites_of plan.now.rows ≤ length passes }
    requires sockets { sites_of plan.now.rows ≤ length sockets.old.items }
    ensures asked { OnOk result (D.asked desk.new ≡ true) }
    ensures all { IfOk result (λ book. length book ≡ sites_of plan.now.rows) }
    ensures records { IfOk result (λ book. AreOfLot ⟦<SocketBox as Socket>⟧.told plan.now
        (said_since (D.stops desk.old) (D.stops desk.new)) sockets.old.items sockets.new.items book) }
    ensures sockets { OnOk result (AreLeft ⟦<SocketBox as Socket>⟧.told plan.now sockets.old.items sockets.new.items) }
{
    lot_at(rt, alloc, mem, passes, plan, sockets, desk, gate)
}

/// The work of all sites at sockets of any kind.
fn lot_at<R: Threads + Wait + Sync, K: Socket + Send, D: Desk, G: Gate>(
    rt: &R,
    alloc: Global,
    mem: &PatternMem,
    passes: PassList,
    plan: &BoundPlan,
    sockets: &mut Vec<K>,
    desk: &mut D,
    gate: &G,
) -> Result<BookState, NoMemory>
    requires one_program { plan.now.program ≡ mem.now.code }
    requires sites { sites_of plan.now.rows ≤ most_sites }
    requires passes { All (λ pass. pass ≡ mem.now) passes }
    requires enough { sites_of plan.now.rows ≤ length passes }
    requires sockets { sites_of plan.now.rows ≤ length sockets.old.items }
    ensures asked { OnOk result (D.asked desk.new ≡ true) }
    ensures all { IfOk result (λ book. length book ≡ sites_of plan.now.rows) }
    ensures records { IfOk result (λ book. AreOfLot K.told plan.now
        (said_since (D.stops desk.old) (D.stops desk.new)) sockets.old.items sockets.new.items book) }
    ensures sockets { OnOk result (AreLeft K.told plan.now sockets.old.items sockets.new.items) }
{
    let sites = plan.sites();
    let (book, list) = Book::new(alloc, plan)?;
    let ShareList { closer, shares } = list;
    let (board, mut asker, seats) = Board::new(alloc, sites)?;
    let mut jobs = make_jobs(
        alloc,
        mem,
        sockets,
        shares.into_vec(),
        seats.into_vec(),
        passes.into_vec(),
    )?;
    do_jobs(
        rt, alloc, mem, plan, &book, &board, gate, &mut jobs, desk, &mut asker, sites,
    );
    let failed = any_failed(&jobs);
    let state = close(alloc, book, closer, board, asker, jobs, sockets)?;
    if failed {
        return Err(NoMemory);
    }
    Ok(state)
}

/// Does the jobs of all sites of a plan, while the desk is asked.
fn do_jobs<R: Threads + Wait + Sync, K: Socket + Send, D: Desk, G: Gate>(
    rt: &R,
    alloc: Global,
    mem: &PatternMem,
    plan: &BoundPlan,
    book: &Book,
    board: &Board,
    gate: &G,
    jobs: &mut Vec<Job<K>>,
    desk: &mut D,
    asker: &mut DeskSeat,
    sites: u8,
)
    requires one_program { plan.now.program ≡ mem.now.code }
    requires book { book.now.places ≡ planned plan.now.rows }
    requires new { AreNew mem.now plan.now book.now board.now jobs.old.items }
    requires asker { asker.old ≡ new_desk board.now sites }
    requires sites { sites ≤ most_sites }
    ensures done { AreDone K.told plan.now book.now board.now jobs.old.items jobs.new.items }
    ensures asked { D.asked desk.new ≡ true }
    ensures board { asker.new.board ≡ board.now }
    ensures sites { asker.new.sites ≡ sites }
    ensures most { (site : ℕ) → slice_index asker.new.asked site + D.stops desk.old site ≤ D.stops desk.new site }
{
    work_beside(
        rt,
        alloc,
        mem,
        plan,
        book,
        board,
        gate,
        jobs.as_mut_slice(),
        desk,
        asker,
        sites,
    );
}

/// Takes jobs apart, with their sockets in front of the others, and closes the book and the board behind them.
fn close<K: Socket>(
    alloc: Global,
    book: Book,
    closer: Closer,
    board: Board,
    asker: DeskSeat,
    jobs: Vec<Job<K>>,
    sockets: &mut Vec<K>,
) -> Result<BookState, NoMemory>
    requires closer { closer ≡ book }
    requires places { length jobs.items ≡ length book.places }
    requires shares { All (λ share. share.book ≡ book) (shares_of jobs.items) }
    requires asker { asker.board ≡ board }
    requires sites { length jobs.items ≡ asker.sites }
    requires seats { All (λ seat. seat.board ≡ board) (seats_of jobs.items) }
    ensures sockets { OnOk result (sockets.new.items ≡ sockets_of jobs.items ++ sockets.old.items) }
    ensures all { IfOk result (λ state. length state ≡ length book.places) }
    ensures records { IfOk result (λ state. All (λ share. (at_site state share.site).records ≡ share.records)
        (shares_of jobs.items)) }
    ensures seen { OnOk result (All (λ seat. seat.seen ≤ slice_index asker.asked seat.site)
        (seats_of jobs.items)) }
{
    let (shares, seats) = take_apart(alloc, jobs, sockets)?;
    let _end = board.close(asker, SiteSeatList::from_vec(seats));
    Ok(book.close(ShareList {
        closer,
        shares: Items::from_vec(shares),
    }))
}
