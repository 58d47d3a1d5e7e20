//! The tape of the first try of a known die at site 2, and what a socket there was told.

ghost use Rattle.std.specs.Prelude.{◌≡◌, ◌≤◌, ◌<◌, false, length, IfOk};
ghost use Rattle.text_bytes.specs.Limits.{most_bytes};
ghost use Rattle.die_sim.specs.Socket.{Told, taping_told};
ghost use Rattle.plan_rows.specs.Rows.{sites_of, dies_at};
ghost use Rattle.site_run.specs.Site.{IsSiteOf};
ghost use Rattle.site_run.specs.Touchdown.{IsIdle};

use bench_net::read;
use die_sim::{Socket, Tape, TapeSocket};
use lot_plan::{BoundPlan, Plan};
use page_code::{Code, load};
use pattern_mem::{PatternMem, PoolPass};
use site_run::Site;
use std::alloc::Global;
use std::sync::{Arc, Wait};
use std::test::Fail;
use vcd_dump::tape_of;

/// A program of the signals A, C and Y: in a table w of 100 ns, A is driven down or up at 0, C falls at 0, rises at 20 ns and
/// falls at 60 ns, and Y is wanted high or low at 40 ns; the rows 0 P H and 1 P L; and an executive of both, each once.
static PROGRAM: &[u8] = &[
    0xD7, 0x53, 0x54, 0x50, 1, 0, 0, 0, 3, 0, 0, 1, 0, b'A', 0, 1, 0, b'C', 1, 1, 0, b'Y', 1, 0, 1,
    0, b'w', 0x00, 0xE1, 0xF5, 0x05, 0, 0, 0, 0, 5, 0, 0, 0, 0, 0, b'0', 1, 0, 0, 0, 0, 0, 0, 0, 0,
    1, 0, 0, b'1', 1, 0, 0, 0, 0, 0, 0, 0, 0, 2, 1, 0, b'P', 3, 0, 0, 0, 0, 0, 0, 0, 0, 1, 0x00,
    0x2D, 0x31, 0x01, 0, 0, 0, 0, 2, 0x00, 0x87, 0x93, 0x03, 0, 0, 0, 0, 1, 2, 0, b'H', 1, 0x00,
    0x5A, 0x62, 0x02, 0, 0, 0, 0, 7, 2, 0, b'L', 1, 0x00, 0x5A, 0x62, 0x02, 0, 0, 0, 0, 6, 2, 0, 0,
    0, b'0', b'P', b'H', b'1', b'P', b'L', 1, 0, 0, 0, 0, 0, 3, 0, 0, 0, 1, 0, 0, 0, 0, 0, 0, 0, 0,
    0, 0, 0, 1, 0, 0, 0, 1, 0, 0, 0, 1, 0, 0, 0, 0, 0, 0, 0, 1, 0, 0, 0, 4, 0, 0, 0, 0, 0, 0, 0, 0,
    0, 0, 0, 0, 0, 0, 0,
];

/// A flip-flop in front of an inverter.
const NET: &[u8] = b"INPUT(A)\nOUTPUT(Y)\nQ = DFF(A)\nY = NOT(Q)\n";

/// A plan with a die at site 2, whose net Q is stuck at 1, so that its try fails.
const PLAN: &[u8] = b"lot,256,1,16,,\nclock,C,,,,\ndie,2,c,dff.bench,,\nfault,2,c,Q,1,\n";

/// The site of that die.
const SITE: u8 = 2;

/// How many drive calls the try has.
const CALLS: usize = 6;

/// The program that these bytes save.
fn code_of(alloc: Global, bytes: &[u8]) -> Result<Code, Fail> {
    match load(alloc, bytes) {
        Ok(code) => Ok(code),
        Err(_) => Err("the bytes are a program".into()),
    }
}

/// The plan of a text with one file, bound to a program and a netlist.
fn bound(alloc: Global, code: &Code, text: &[u8], net: &[u8]) -> Result<BoundPlan, Fail>
    requires text { length text.now ≤ most_bytes }
    requires net { length net.now ≤ most_bytes }
    ensures program { IfOk result (λ plan. plan.program ≡ code.now) }
    ensures site { IfOk result (λ plan. 2 < sites_of plan.rows) }
    ensures die { IfOk result (λ plan. 0 < length (dies_at 2 plan.rows)) }
{
    let Ok(plan) = Plan::read(alloc, text) else {
        return Err("the text is a plan".into());
    };
    if plan.files().len() != 1 {
        return Err("there is one file".into());
    }
    let Ok(net) = read(alloc, net) else {
        return Err("there is a netlist".into());
    };
    let mut nets = Vec::with_capacity(alloc, 1)?;
    nets.push(Arc::new(alloc, net)?)?;
    let Ok(plan) = plan.bind(alloc, code, nets) else {
        return Err("the plan fits".into());
    };
    if plan.sites() <= SITE || plan.dies(SITE) == 0 {
        return Err("the site has a die".into());
    }
    Ok(plan)
}

/// A memory of a program, with a pass.
fn memory_of(alloc: Global, code: Code) -> Result<(PatternMem, PoolPass), Fail>
    ensures code { IfOk result (λ made. made.0.code ≡ code) }
    ensures pass { IfOk result (λ made. made.1 ≡ made.0) }
{
    let (mem, passes) = PatternMem::new(alloc, code, 4, 1)?;
    let Some(pass) = passes.into_vec().pop() else {
        return Err("there is a pass".into());
    };
    Ok((mem, pass))
}

/// A memory of a program, and the site of a plan that is bound to it.
fn started(alloc: Global, code: Code, plan: &BoundPlan) -> Result<(PatternMem, Site), Fail>
    requires program { plan.now.program ≡ code }
    requires site { 2 < sites_of plan.now.rows }
    ensures is { IfOk result (λ made. (told : Told) → IsSiteOf made.0 plan.now told made.1) }
    ensures idle { IfOk result (λ made. IsIdle made.1) }
    ensures spent { IfOk result (λ made. made.1.spent ≡ false) }
{
    let (mem, pass) = memory_of(alloc, code)?;
    let site = Site::start(alloc, &mem, pass, plan, SITE)?;
    Ok((mem, site))
}

/// Runs the first touchdown of a site at a socket.
fn touch<R: Wait>(
    rt: &R,
    mem: &PatternMem,
    plan: &BoundPlan,
    site: &mut Site,
    socket: &mut TapeSocket,
) -> Result<(), Fail>
    requires site { IsSiteOf mem.now plan.now (taping_told socket.old) site.old }
    requires idle { IsIdle site.old }
    requires spent { site.old.spent ≡ false }
{
    if site.done() {
        return Err("there is a die".into());
    }
    let _record = site.touchdown(rt, mem, plan, socket)?;
    Ok(())
}

/// Runs the first touchdown of the site at a socket.
fn run<R: Wait>(
    rt: &R,
    alloc: Global,
    code: Code,
    plan: &BoundPlan,
    socket: &mut TapeSocket,
) -> Result<(), Fail>
    requires program { plan.now.program ≡ code }
    requires site { 2 < sites_of plan.now.rows }
{
    let (mem, mut site) = started(alloc, code, plan)?;
    touch(rt, &mem, plan, &mut site, socket)
}

/// Whether two tapes have the same calls.
fn same_tape(one: &Tape, other: &Tape) -> bool {
    if one.len() != other.len() {
        return false;
    }
    for place in 0..one.len() {
        if one.instant(place) != other.instant(place) || one.drives(place) != other.drives(place) {
            return false;
        }
    }
    true
}

/// The program, and the plan of its lot.
fn planned(alloc: Global) -> Result<(Code, BoundPlan), Fail>
    ensures program { IfOk result (λ made. made.1.program ≡ made.0) }
    ensures site { IfOk result (λ made. 2 < sites_of made.1.rows) }
    ensures die { IfOk result (λ made. 0 < length (dies_at 2 made.1.rows)) }
{
    let code = code_of(alloc, PROGRAM)?;
    let plan = bound(alloc, &code, PLAN, NET)?;
    Ok((code, plan))
}

/// The tape of the first try at the site.
fn taped(alloc: Global, code: &Code, plan: &BoundPlan) -> Result<Tape, Fail>
    requires program { plan.now.program ≡ code.now }
    requires site { 2 < sites_of plan.now.rows }
    requires die { 0 < length (dies_at 2 plan.now.rows) }
{
    match tape_of(alloc, code, plan, SITE) {
        Ok(tape) => Ok(tape),
        Err(_) => Err("the tape isn't too long".into()),
    }
}

/// Whether a socket's tape is this one.
fn is_told(socket: &TapeSocket, tape: &Tape) -> bool {
    match socket.tape() {
        Some(told) => same_tape(told, tape),
        None => false,
    }
}

#[test]
fn a_socket_is_told_the_tape_of_the_first_try(rt: HostRuntime) -> Result<(), Fail> {
    let (code, plan) = planned(rt.alloc())?;
    let tape = taped(rt.alloc(), &code, &plan)?;
    let mut socket = TapeSocket::new(rt.alloc(), 1000)?;
    run(&rt, rt.alloc(), code, &plan, &mut socket)?;
    assert_eq!(rt; tape.len(), CALLS);
    assert!(rt; is_told(&socket, &tape));
    Ok(())
}
