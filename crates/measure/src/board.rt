//! Asks, looks and polls at a board a number of times, first alone and then while sixteen threads poll, and prints how often.
//! With the word `time` behind the number it prints how long one of these calls took, in tenths of nanoseconds.

ghost use Rattle.std.specs.Prelude.{◌≡◌, ◌<◌, All, replicate};
ghost use Rattle.std.specs.Thread.{IsSync};
ghost use Rattle.text_bytes.specs.Limits.{most_sites};

use crate::words::number;
use std::alloc::Global;
use std::io;
use std::io::Print;
use std::thread::{Threads, for_each_mut, join_mut};
use std::time::{Clock, Instant};
use stop_board::{Board, DeskSeat, SiteSeat};
use tester_types::NoMemory;
use text_bytes::MOST_SITES;

/// The sites of the board, each with a thread of its own.
const SITES: u8 = MOST_SITES as u8;

/// How long so many calls took, in nanoseconds, where the clock could be read.
#[derive(Clone, Copy)]
struct Taken {
    ask: Option<u128>,
    look: Option<u128>,
    poll: Option<u128>,
}

fn ask_often(board: &Board, desk: &mut DeskSeat, times: u32)
    requires board { desk.old.board ≡ board.now }
    requires site { 0 < desk.old.sites }
    requires asked { desk.old.asked ≡ replicate most_sites 0 }
    ensures { desk.new.board ≡ desk.old.board }
{
    for _ in 0..times {
        desk.ask(board, 0);
    }
}

fn look_often(board: &Board, desk: &mut DeskSeat, times: u32)
    requires { desk.old.board ≡ board.now }
{
    for _ in 0..times {
        let _ = desk.finished(board);
    }
}

fn poll_often(board: &Board, seat: &mut SiteSeat, times: u32)
    requires { seat.old.board ≡ board.now }
    ensures { seat.new.board ≡ seat.old.board }
{
    for _ in 0..times {
        let _ = seat.poll(board);
    }
}

/// How long the asks took, and then the looks.
fn desk_steps<R: Clock>(
    rt: &R,
    board: &Board,
    desk: &mut DeskSeat,
    times: u32,
) -> (Option<u128>, Option<u128>)
    requires board { desk.old.board ≡ board.now }
    requires site { 0 < desk.old.sites }
    requires asked { desk.old.asked ≡ replicate most_sites 0 }
{
    let start = Instant::now(rt);
    ask_often(board, desk, times);
    let asked = since(rt, start);
    let start = Instant::now(rt);
    look_often(board, desk, times);
    (asked, since(rt, start))
}

/// The nanoseconds since then.
fn since<R: Clock>(rt: &R, start: io::Result<Instant>) -> Option<u128> {
    Some(start.ok()?.elapsed(rt).ok()?.as_nanos())
}

/// How long the polls of all seats took, each in a thread of its own.
fn polls<R: Clock + Threads + Sync>(
    rt: &R,
    board: &Board,
    seats: &mut [SiteSeat],
    times: u32,
) -> Option<u128>
    requires { All (λ seat. seat.board ≡ board.now) seats.old }
{
    let start = Instant::now(rt);
    for_each_mut(
        rt,
        seats,
        MOST_SITES,
        &|_: usize, seat: &mut SiteSeat|
            requires { seat.now.board ≡ board.now }
        { poll_often(board, seat, times) },
    );
    since(rt, start)
}

/// The desk and one seat, one after the other.
fn alone<R: Clock>(rt: &R, alloc: Global, times: u32) -> Result<Taken, NoMemory> {
    let (board, mut desk, seats) = Board::new(alloc, SITES)?;
    let mut seats = seats.into_vec();
    let (ask, look) = desk_steps(rt, &board, &mut desk, times);
    let start = Instant::now(rt);
    poll_often(&board, &mut seats[0], times);
    let poll = since(rt, start);
    Ok(Taken { ask, look, poll })
}

/// The desk in one thread, and the seats in sixteen.
fn at_once<R: Clock + Threads + Sync>(
    rt: &R,
    board: &Board,
    desk: &mut DeskSeat,
    seats: &mut [SiteSeat],
    times: u32,
) -> Taken
    requires board { desk.old.board ≡ board.now }
    requires site { 0 < desk.old.sites }
    requires asked { desk.old.asked ≡ replicate most_sites 0 }
    requires seats { All (λ seat. seat.board ≡ board.now) seats.old }
{
    let ((ask, look), poll) = join_mut(
        rt,
        &mut || desk_steps(rt, board, desk, times),
        &mut || -> Option<u128>
            requires { IsSync R.row × All (λ seat. seat.board ≡ board.now) seats.now }
        { polls(rt, board, seats, times) },
    );
    Taken { ask, look, poll }
}

/// The desk and the seats at once.
fn beside<R: Clock + Threads + Sync>(rt: &R, alloc: Global, times: u32) -> Result<Taken, NoMemory> {
    let (board, mut desk, seats) = Board::new(alloc, SITES)?;
    let mut seats = seats.into_vec();
    Ok(at_once(rt, &board, &mut desk, seats.as_mut_slice(), times))
}

/// Tenths of nanoseconds of one call.
fn tenths(taken: Option<u128>, times: u32) -> u64 {
    match taken {
        Some(nanos) if times > 0 => u64::try_from(
            nanos.saturating_mul(10) / u128::from(times),
        ).unwrap_or(0),
        _ => 0,
    }
}

/// Measures a board by the words behind `board`.
pub fn run<R: Print + Clock + AllocGlobal + Threads + Sync>(
    rt: &R,
    words: &[String],
) -> io::Result<()> {
    let times = number(words, 0);
    let timed = words.len() > 1;
    for threads in [1u8, SITES] {
        let taken = if threads == 1 {
            alone(rt, rt.alloc(), times)
        } else {
            beside(rt, rt.alloc(), times)
        };
        match taken {
            Err(_) => println!(rt; "no memory")?,
            Ok(taken) if timed => {
                let (ask, look) = (tenths(taken.ask, times), tenths(taken.look, times));
                println!(rt; "{threads} {ask} {look} {}", tenths(taken.poll, times))?
            }
            Ok(_) => println!(rt; "{threads} {times}")?,
        }
    }
    Ok(())
}
