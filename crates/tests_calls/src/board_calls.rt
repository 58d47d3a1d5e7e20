//! Boards that two threads share, and boards of no site and of sixteen.
ghost use Rattle.std.specs.Prelude.{◌≡◌, ◌<◌, ◌≤◌, replicate};
ghost use Rattle.text_bytes.specs.Limits.{most_sites};

use std::test::Fail;
use std::thread::{join_mut, yield_now};
use stop_board::{Board, DeskSeat, SiteSeat, SiteSeatList};

/// How often the desk asks.
const ASKS: u32 = 1000;

/// How often a seat polls for its first stop.
const POLLS: u32 = 10_000_000;

// Asks for a stop at site 0, again and again.
fn ask_often(board: &Board, desk: &mut DeskSeat)
    requires board { desk.old.board ≡ board.now }
    requires site { 0 < desk.old.sites }
    requires asked { desk.old.asked ≡ replicate most_sites 0 }
    ensures board { desk.new.board ≡ desk.old.board }
    ensures sites { desk.new.sites ≡ desk.old.sites }
{
    for _ in 0..ASKS {
        desk.ask(board, 0);
    }
}

// Polls until it is told of a stop.
fn poll_until_asked(board: &Board, seat: &mut SiteSeat) -> u64
    requires board { seat.old.board ≡ board.now }
    ensures board { seat.new.board ≡ seat.old.board }
    ensures finished { seat.new.finished ≡ seat.old.finished }
{
    for _ in 0..POLLS {
        let told = seat.poll(board);
        if told > 0 {
            return told;
        }
        yield_now();
    }
    0
}

#[test]
fn a_seat_is_told_by_another_thread(rt: HostRuntime) -> Result<(), Fail> {
    let (board, mut desk, seats) = Board::new(rt.alloc(), 1)?;
    let mut seats = seats.into_vec();
    let Some(mut seat) = seats.pop() else {
        return Err(Fail::from("no seat"));
    };
    let told = join_mut(
        &rt,
        &mut || ask_often(&board, &mut desk),
        &mut || poll_until_asked(&board, &mut seat),
    )
    .1;
    assert!(rt; 0 < told && told <= u64::from(ASKS));
    assert_eq!(rt; seat.poll(&board), u64::from(ASKS));
    assert_eq!(rt; desk.finished(&board), 0);
    seat.finish(&board);
    assert_eq!(rt; desk.finished(&board), 1);
    seats.push(seat)?;
    let end = board.close(desk, SiteSeatList::from_vec(seats));
    assert_eq!(rt; end.asked.get(0), u64::from(ASKS));
    Ok(())
}

#[test]
fn a_board_may_have_no_site(rt: HostRuntime) -> Result<(), Fail> {
    let (board, mut desk, seats) = Board::new(rt.alloc(), 0)?;
    assert!(rt; seats.is_empty());
    assert_eq!(rt; desk.finished(&board), 0);
    let end = board.close(desk, seats);
    assert_eq!(rt; end.asked.get(15), 0);
    Ok(())
}

#[test]
fn a_board_may_have_sixteen_sites(rt: HostRuntime) -> Result<(), Fail> {
    let (board, mut desk, seats) = Board::new(rt.alloc(), 16)?;
    let mut seats = seats.into_vec();
    desk.ask(&board, 15);
    let last = &mut seats[15];
    assert_eq!(rt; last.poll(&board), 1);
    last.finish(&board);
    assert_eq!(rt; seats[14].poll(&board), 0);
    assert_eq!(rt; desk.finished(&board), 1);
    let end = board.close(desk, SiteSeatList::from_vec(seats));
    assert_eq!(rt; end.asked.get(15), 1);
    assert_eq!(rt; end.asked.get(14), 0);
    Ok(())
}
