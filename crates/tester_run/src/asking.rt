//! The asking of the desk, while the sites work.

ghost use Rattle.std.specs.Prelude.{◌≡◌, ◌+◌, ◌≤◌, ◌<◌, ℕ, true, replicate, slice_index};
ghost use Rattle.text_bytes.specs.Limits.{most_sites};
ghost use Rattle.tester_types.specs.Desk.{Says};
ghost use Rattle.tester_run.specs.Asking.{IsPassedOn, after_answer};

use std::sync::Wait;
use std::thread::yield_now;
use stop_board::{Board, DeskSeat};
use tester_types::{Ask, Desk};
use text_bytes::MOST_SITES;

/// So often a site is asked to stop, and no more.
const MOST: u64 = 1 << 63;

/// Asks the desk and passes its stops on, until so many sites have finished. It asks once at least.
pub(crate) fn ask_all<R: Wait, D: Desk>(
    rt: &R,
    board: &Board,
    seat: &mut DeskSeat,
    desk: &mut D,
    sites: u8,
)
    requires board { seat.old.board ≡ board.now }
    requires sites { (seat.old.sites ≡ sites) × (sites ≤ most_sites) }
    requires none { seat.old.asked ≡ replicate most_sites 0 }
    ensures asked { D.asked desk.new ≡ true }
    ensures board { seat.new.board ≡ seat.old.board }
    ensures sites { seat.new.sites ≡ seat.old.sites }
    ensures most { (site : ℕ) → slice_index seat.new.asked site + D.stops desk.old site ≤ D.stops desk.new site }
{
    let mut asked = [0; MOST_SITES];
    for _ in rt.forever() {
        pass_on(board, seat, &mut asked, desk, sites);
        if seat.finished(board) >= u64::from(sites) {
            break;
        }
        yield_now();
    }
}

/// Asks the desk once, and passes its stop on.
fn pass_on<D: Desk>(
    board: &Board,
    seat: &mut DeskSeat,
    asked: &mut [u64; MOST_SITES],
    desk: &mut D,
    sites: u8,
)
    requires board { seat.old.board ≡ board.now }
    requires sites { (seat.old.sites ≡ sites) × (sites ≤ most_sites) }
    requires counts { seat.old.asked ≡ asked.old }
    ensures asked { D.asked desk.new ≡ true }
    ensures board { seat.new.board ≡ seat.old.board }
    ensures sites { seat.new.sites ≡ seat.old.sites }
    ensures counts { seat.new.asked ≡ asked.new }
    ensures passed { IsPassedOn (D.stops desk.old) (D.stops desk.new) seat.old.asked seat.new.asked }
{
    let answer = desk.next();
    heed(board, seat, asked, answer, sites);
}

/// Asks for the stop that the desk answered, where it is for one of so many sites.
fn heed(board: &Board, seat: &mut DeskSeat, asked: &mut [u64; MOST_SITES], answer: Ask, sites: u8)
    requires board { seat.old.board ≡ board.now }
    requires sites { (seat.old.sites ≡ sites) × (sites ≤ most_sites) }
    requires counts { seat.old.asked ≡ asked.old }
    ensures heeded { seat.new.asked ≡ after_answer sites answer seat.old.asked }
    ensures board { seat.new.board ≡ seat.old.board }
    ensures sites { seat.new.sites ≡ seat.old.sites }
    ensures counts { seat.new.asked ≡ asked.new }
    ensures passed { (before now : ℕ → ℕ) → Says answer before now
        → IsPassedOn before now seat.old.asked seat.new.asked }
{
    match answer {
        Ask::Nothing => {}
        Ask::Stop(site) => {
            let place = usize::from(site);
            if site < sites && asked[place] < MOST {
                seat.ask(board, site);
                asked[place] += 1;
            }
        }
    }
}
