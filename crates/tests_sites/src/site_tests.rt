//! Known touchdowns at one site: an inverter, whose output is stuck at 0 in its first try, at a socket with a tape.

ghost use Rattle.std.specs.Prelude.{◌≡◌, false, IfOk};
ghost use Rattle.die_sim.specs.Socket.{Told, taping_told};
ghost use Rattle.site_run.specs.Site.{IsSiteOf};
ghost use Rattle.site_run.specs.Touchdown.{IsIdle};

use crate::sample::{Outcome, bound, code_of, outcomes};
use die_sim::{Socket, TapeSocket};
use lot_plan::BoundPlan;
use page_code::Code;
use pattern_mem::{PatternMem, PoolPass};
use site_run::*;
use std::alloc::Global;
use std::sync::Wait;
use std::test::Fail as Failure;
use tester_types::{Record, Verdict};

/// A die whose output is stuck at 0 in its first try.
const STUCK_AT_FIRST: &[u8] = b"lot,4,3,2,,\nclock,c,,,,\ndie,0,d,inv,,\nfault,0,d,y,0,1\n";

/// A memory of a code, with a pass.
fn memory_of(alloc: Global, code: Code) -> Result<(PatternMem, PoolPass), Failure>
    ensures code { IfOk result (λ made. made.0.code ≡ code) }
    ensures pass { IfOk result (λ made. made.1 ≡ made.0) }
{
    let (mem, passes) = PatternMem::new(alloc, code, 4, 1)?;
    let Some(pass) = passes.into_vec().pop() else {
        return Err("there is a pass".into());
    };
    Ok((mem, pass))
}

/// A memory of the program, the plan that is bound to it, and its site 0.
fn started(alloc: Global) -> Result<(PatternMem, BoundPlan, Site), Failure>
    ensures is { IfOk result (λ made. (told : Told) → IsSiteOf made.0 made.1 told made.2) }
    ensures idle { IfOk result (λ made. IsIdle made.2) }
    ensures spent { IfOk result (λ made. made.2.spent ≡ false) }
{
    let code = code_of(alloc)?;
    let plan = bound(alloc, &code, STUCK_AT_FIRST)?;
    if plan.sites() == 0 {
        return Err("there is a site".into());
    }
    let (mem, pass) = memory_of(alloc, code)?;
    let site = Site::start(alloc, &mem, pass, &plan, 0)?;
    Ok((mem, plan, site))
}

/// Runs the first touchdown of a site, and gives its record.
fn touched<R: Wait>(
    rt: &R,
    mem: &PatternMem,
    plan: &BoundPlan,
    site: &mut Site,
    socket: &mut TapeSocket,
) -> Result<Record, Failure>
    requires site { IsSiteOf mem.now plan.now (taping_told socket.old) site.old }
    requires idle { IsIdle site.old }
    requires spent { site.old.spent ≡ false }
{
    if site.done() {
        return Err("there is a die".into());
    }
    Ok(site.touchdown(rt, mem, plan, socket)?)
}

/// The record of the first touchdown of site 0 at a socket.
fn first_record<R: Wait>(
    rt: &R,
    alloc: Global,
    socket: &mut TapeSocket,
) -> Result<Record, Failure> {
    let (mem, plan, mut site) = started(alloc)?;
    touched(rt, &mem, &plan, &mut site, socket)
}

/// How many drive calls the tape of a socket has.
fn calls_of(socket: &TapeSocket) -> usize {
    match socket.tape() {
        Some(tape) => tape.len(),
        None => 0,
    }
}

/// What the tries of the first touchdown come to at a socket whose tape has this room, and how many drive calls it has then.
fn landed<R: Wait>(rt: &R, alloc: Global, room: u32) -> Result<(Vec<Outcome>, usize), Failure> {
    let mut socket = TapeSocket::new(alloc, room)?;
    let record = first_record(rt, alloc, &mut socket)?;
    let list = outcomes(alloc, &[record])?;
    Ok((list, calls_of(&socket)))
}

/// Whether the first try fails and the second one comes to this, with so many drive calls on a tape of this room.
fn lands<R: Wait>(
    rt: &R,
    alloc: Global,
    room: u32,
    second: Outcome,
    calls: usize,
) -> Result<bool, Failure> {
    let (list, made) = landed(rt, alloc, room)?;
    Ok(made == calls && list.as_slice() == [(1, 10, 5, Verdict::Fail(0)), second].as_slice())
}

#[test]
fn a_touchdown_is_on_the_tape(rt: HostRuntime) -> Result<(), Failure> {
    assert!(rt; lands(&rt, rt.alloc(), 40, (2, 10, 0, Verdict::Pass), 20)?);
    Ok(())
}

#[test]
fn a_tape_that_is_full_loses_contact(rt: HostRuntime) -> Result<(), Failure> {
    assert!(rt;
        lands(
            &rt,
            rt.alloc(),
            39,
            (2, 9, 0, Verdict::Contact(900_000_000)),
            19
        )?
    );
    Ok(())
}
