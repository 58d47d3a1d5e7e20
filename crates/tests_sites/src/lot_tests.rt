//! The work of two sites beside each other, each with one die.

ghost use Rattle.std.specs.Prelude.{◌≡◌, ◌≤◌, All, IfOk, length};

use crate::gates::{AskedGate, CountedDesk, MeetingGate};
use crate::sample::{Outcome, bound, code_of, outcomes};
use die_sim::{SimSocket, SocketBox};
use lot_plan::BoundPlan;
use pattern_mem::{PassList, PatternMem};
use std::alloc::Global;
use std::sync::atomic::{AtomicU64, Ordering};
use std::sync::{Arc, Wait};
use std::test::Fail;
use std::thread::Threads;
use tester_run::run_lot;
use tester_types::{Ask, By, Desk, Gate, ListDesk, SilentDesk, Verdict};

/// A plan with a die at each of two sites.
const PLAN: &[u8] = b"lot,4,1,3,,\nclock,c,,,,\ndie,0,d,inv,,\ndie,1,e,inv,,\n";

/// What the try of a die that is whole comes to.
const PASSED: Outcome = (1, 10, 0, Verdict::Pass);

/// Two sockets.
fn two_sockets(alloc: Global) -> Result<Vec<SocketBox>, Fail>
    ensures { IfOk result (λ sockets. length sockets.items ≡ 2) }
{
    let mut sockets = Vec::with_capacity(alloc, 2)?;
    let first: SocketBox = Box::new(alloc, SimSocket::new(alloc))?;
    let second: SocketBox = Box::new(alloc, SimSocket::new(alloc))?;
    sockets.push(first)?;
    sockets.push(second)?;
    Ok(sockets)
}

/// What the tries of a plan's two sites came to.
fn worked<R: Threads + Wait + Sync, D: Desk, G: Gate>(
    rt: &R,
    alloc: Global,
    mem: &PatternMem,
    passes: PassList,
    plan: &BoundPlan,
    desk: &mut D,
    gate: &G,
) -> Result<(Vec<Outcome>, Vec<Outcome>), Fail>
    requires program { plan.now.program ≡ mem.now.code }
    requires passes { All (λ pass. pass ≡ mem.now) passes }
    requires enough { 2 ≤ length passes }
{
    if plan.sites() != 2 {
        return Err("there are two sites".into());
    }
    let mut sockets = two_sockets(alloc)?;
    let book = run_lot(rt, alloc, mem, passes, plan, &mut sockets, desk, gate)?;
    if book.sites().len() != 2 {
        return Err("the book has two sites".into());
    }
    let first = outcomes(alloc, book.records(0).as_slice())?;
    let second = outcomes(alloc, book.records(1).as_slice())?;
    Ok((first, second))
}

/// The same of the plan above.
fn worked_by<R: Threads + Wait + Sync, D: Desk, G: Gate>(
    rt: &R,
    alloc: Global,
    desk: &mut D,
    gate: &G,
) -> Result<(Vec<Outcome>, Vec<Outcome>), Fail> {
    let code = code_of(alloc)?;
    let plan = bound(alloc, &code, PLAN)?;
    let (mem, passes) = PatternMem::new(alloc, code, 4, 2)?;
    worked(rt, alloc, &mem, passes, &plan, desk, gate)
}

#[test]
fn two_sites_run_at_the_same_time(rt: HostRuntime) -> Result<(), Fail> {
    let gate = MeetingGate {
        came: AtomicU64::new(0),
        late: AtomicU64::new(0),
    };
    let mut desk = SilentDesk::new();
    let (first, second) = worked_by(&rt, rt.alloc(), &mut desk, &gate)?;
    assert_eq!(rt; gate.late.load(Ordering::SeqCst), 0);
    assert!(rt; first.as_slice() == [PASSED].as_slice());
    assert!(rt; second.as_slice() == [PASSED].as_slice());
    Ok(())
}

#[test]
fn a_stop_for_one_site_leaves_the_other(rt: HostRuntime) -> Result<(), Fail> {
    let asks = Arc::new(rt.alloc(), AtomicU64::new(0))?;
    let mut desk = CountedDesk {
        list: ListDesk::new(vec![in rt.alloc(); Ask::Stop(1)]?),
        asks: Arc::try_clone(&asks)?,
    };
    let gate = AskedGate {
        asks,
        late: AtomicU64::new(0),
    };
    let (first, second) = worked_by(&rt, rt.alloc(), &mut desk, &gate)?;
    assert_eq!(rt; gate.late.load(Ordering::SeqCst), 0);
    assert!(rt; first.as_slice() == [PASSED].as_slice());
    assert!(rt; second.as_slice() == [(1, 0, 0, Verdict::Stopped(0, By::Desk(1)))].as_slice());
    Ok(())
}
