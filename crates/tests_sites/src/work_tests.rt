//! The work of one site, alone and while it is asked to stop.

ghost use Rattle.std.specs.Prelude.{◌≡◌, ◌<◌, ◌≤◌, length, replicate, IfOk};
ghost use Rattle.text_bytes.specs.Limits.{most_sites};

use crate::sample::{Outcome, bound, code_of, outcomes};
use die_sim::{SimSocket, SocketBox};
use lot_book::{Book, ShareList};
use lot_plan::BoundPlan;
use pattern_mem::{PatternMem, PoolPass};
use std::alloc::Global;
use std::sync::Wait;
use std::test::Fail;
use std::thread::Threads;
use stop_board::{Board, DeskSeat};
use tester_run::site_work;
use tester_types::{By, Items, OpenGate, Verdict};

/// Two dies, of which the first is to be stopped before its first batch.
const PLAN: &[u8] = b"lot,4,1,3,,\nclock,c,,,,\ndie,0,d,inv,,\ndie,0,e,inv,,\nstop,0,d,1,0,\n";

/// Asks site 0 to stop so often.
fn ask_often(board: &Board, desk: &mut DeskSeat, times: u8)
    requires board { desk.old.board ≡ board.now }
    requires site { 0 < desk.old.sites }
    requires asked { desk.old.asked ≡ replicate most_sites 0 }
    ensures board { desk.new.board ≡ desk.old.board }
    ensures sites { desk.new.sites ≡ desk.old.sites }
{
    for _ in 0..times {
        desk.ask(board, 0);
    }
}

/// What the tries of the one site of a plan came to, once the site was asked to stop so often; and how many seats have
/// finished.
fn worked<R: Threads + Wait + Sync>(
    rt: &R,
    alloc: Global,
    mem: &PatternMem,
    pass: PoolPass,
    plan: &BoundPlan,
    asks: u8,
) -> Result<(Vec<Outcome>, u64), Fail>
    requires program { plan.now.program ≡ mem.now.code }
    requires pass { pass ≡ mem.now }
{
    if plan.sites() != 1 {
        return Err("there is one site".into());
    }
    let (book, list) = Book::new(alloc, plan)?;
    let ShareList { closer, shares } = list;
    let (board, mut desk, seats) = Board::new(alloc, 1)?;
    let mut shares = shares.into_vec();
    let Some(mut share) = shares.pop() else {
        return Err("there is a share".into());
    };
    let Some(mut seat) = seats.into_vec().pop() else {
        return Err("there is a seat".into());
    };
    ask_often(&board, &mut desk, asks);
    let mut socket: SocketBox = Box::new(alloc, SimSocket::new(alloc))?;
    site_work(
        rt,
        alloc,
        mem,
        pass,
        plan,
        &book,
        &mut share,
        &board,
        &mut seat,
        &mut socket,
        &OpenGate,
    )?;
    shares.push(share)?;
    let state = book.close(ShareList {
        closer,
        shares: Items::from_vec(shares),
    });
    let list = outcomes(alloc, state.records(0).as_slice())?;
    Ok((list, desk.finished(&board)))
}

/// The same of the plan above.
fn worked_by<R: Threads + Wait + Sync>(
    rt: &R,
    alloc: Global,
    asks: u8,
) -> Result<(Vec<Outcome>, u64), Fail> {
    let code = code_of(alloc)?;
    let plan = bound(alloc, &code, PLAN)?;
    let (mem, passes) = PatternMem::new(alloc, code, 4, 1)?;
    let Some(pass) = passes.into_vec().pop() else {
        return Err("there is a pass".into());
    };
    worked(rt, alloc, &mem, pass, &plan, asks)
}

#[test]
fn a_stop_wins_over_an_order_and_leaves_the_next_die(rt: HostRuntime) -> Result<(), Fail> {
    let (list, finished) = worked_by(&rt, rt.alloc(), 2)?;
    let wanted = [
        (1, 0, 0, Verdict::Stopped(0, By::Desk(2))),
        (1, 10, 0, Verdict::Pass),
    ];
    assert!(rt; list.as_slice() == wanted.as_slice());
    assert!(rt; finished == 1);
    Ok(())
}
