//! `drill`: a lot of which the program makes all texts itself.

ghost use Rattle.std.specs.Prelude.{◌≡◌, ◌≤◌, ◌∷◌, [], IfOk, length, map, MatchResult};
ghost use Rattle.std.specs.Arc.{arc_value};
ghost use Rattle.tester_types.specs.Outside.{Prints};
ghost use Rattle.tester_types.specs.Records.{records_of};
ghost use Rattle.bench_net.specs.Circuit.{IsWhole};
ghost use Rattle.bench_net.specs.Net.{IsNet};
ghost use Rattle.plan_rows.specs.Plan.{IsPlan};
ghost use Rattle.plan_rows.specs.Rows.{sites_of};
ghost use Rattle.datalog.specs.Printable.{AreSound};
ghost use Rattle.drill_fine.specs.Texts.{stil_text, net_text, plan_text};
ghost use Rattle.stil_program.specs.Program.{IsProgramOf};
ghost use Rattle.tool_inputs.specs.Endings.{Answers};
ghost use Rattle.stil_tool.specs.Lot.{usable};
ghost use Rattle.stil_tool.specs.Drill.{IsTextRefused, IsDrillReady, DrillRunWants, DrillComes, drill_line, drill_text};

use crate::drill_netlist::net_text;
use crate::drill_plan::plan_text;
use crate::drill_program::stil_text;
use crate::floor::{test, usable};
use bench_net::Netlist;
use datalog::{fail_count, print_totals};
use die_sim::{Socket, SocketBox};
use floor_core::BookState;
use lot_plan::{BoundPlan, Plan};
use page_code::Code;
use std::alloc::{AllocError, Global};
use std::sync::{Arc, Wait};
use std::thread::Threads;
use stil_ast::StilRefusal;
use stil_program::program;
use tester_types::{Desk, Gate, Piece, Sink, SinkFault, Text, put_each};
use tool_inputs::{ReadyLot, Refusal, Status, no_memory, put_refusal};

/// The name of the netlist in the plan.
const FILE: &[u8] = b"drill.bench";

/// The code of the text.
fn code(alloc: Global, number: u8) -> Result<Code, Refusal>
    ensures { MatchResult result (IsProgramOf (stil_text number)) (IsTextRefused number) }
{
    let Ok(text) = stil_text(alloc, number) else {
        return Err(Refusal::NoMemory);
    };
    match program(alloc, text.as_slice()) {
        Ok(code) => Ok(code),
        Err(StilRefusal::NoMemory) => Err(Refusal::NoMemory),
        Err(StilRefusal::Fault(fault)) => Err(Refusal::Stil(fault)),
    }
}

/// The plan.
fn plan(alloc: Global, number: u8) -> Result<Plan, Refusal>
    ensures { MatchResult result (IsPlan (plan_text number)) (IsTextRefused number) }
{
    let Ok(text) = plan_text(alloc, number) else {
        return Err(Refusal::NoMemory);
    };
    match Plan::read(alloc, text.as_slice()) {
        Ok(plan) => Ok(plan),
        Err(fault) => Err(Refusal::Plan(fault)),
    }
}

/// The netlist of each die.
fn net(alloc: Global, number: u8) -> Result<Netlist, Refusal>
    ensures { MatchResult result (λ net. IsNet (net_text number) net.net × IsWhole net) (IsTextRefused number) }
{
    let Ok(name) = Vec::from_slice(alloc, FILE) else {
        return Err(Refusal::NoMemory);
    };
    let Ok(text) = net_text(alloc, number) else {
        return Err(Refusal::NoMemory);
    };
    match Netlist::read(alloc, text.as_slice()) {
        Ok(net) => Ok(net),
        Err(fault) => Err(Refusal::Net(Text::from_vec(name), fault)),
    }
}

/// A netlist in a list of one.
fn shared(alloc: Global, net: Netlist) -> Result<Vec<Arc<Netlist>>, AllocError>
    ensures { IfOk result (λ nets. map arc_value nets.items ≡ net ∷ []) }
{
    let mut nets = Vec::with_capacity(alloc, 1)?;
    nets.push(Arc::new(alloc, net)?)?;
    Ok(nets)
}

/// Reads the three texts, and binds the plan, which has one file.
fn prepare(alloc: Global, number: u8) -> Result<ReadyLot, Refusal>
    requires { number ≤ 200 }
    ensures { MatchResult result (λ lot. IsDrillReady number lot.code lot.plan) (IsTextRefused number) }
{
    let code = code(alloc, number)?;
    let plan = plan(alloc, number)?;
    let net = net(alloc, number)?;
    let Ok(nets) = shared(alloc, net) else {
        return Err(Refusal::NoMemory);
    };
    match plan.bind(alloc, &code, nets) {
        Ok(plan) => Ok(ReadyLot { code, plan }),
        Err(fault) => Err(Refusal::Plan(fault)),
    }
}

/// Puts how many vectors there are and how many looks failed.
fn put_counts<K: Sink>(number: u8, book: &BookState, out: &mut K) -> Result<(), SinkFault>
    ensures { Prints (K.told out.old) (K.faults out.old) (drill_line number (records_of book.now)) result
        (K.told out.new) (K.faults out.new) }
{
    let line = [
        Piece::Text(b"drill "),
        Piece::Number(u128::from(number)),
        Piece::Text(b" vectors "),
        Piece::Number(500 * u128::from(number)),
        Piece::Text(b" fails "),
        Piece::Number(fail_count(book)),
        Piece::Text(b"\n"),
    ];
    put_each(out, &line)
}

/// Puts what a lot comes to: its vectors, how many looks failed, and how many dies each bin has.
fn put_summary<K: Sink>(
    number: u8,
    plan: &BoundPlan,
    book: &BookState,
    out: &mut K,
) -> Result<(), SinkFault>
    requires { AreSound plan.now book.now }
    ensures { Prints (K.told out.old) (K.faults out.old) (drill_text number plan.now (records_of book.now)) result
        (K.told out.new) (K.faults out.new) }
{
    put_counts(number, book, out)?;
    print_totals(plan, book, out)
}

/// Runs the lot, and prints what it comes to.
fn run<R: Threads + Wait + Sync, D: Desk, G: Gate, K: Sink>(
    rt: &R,
    alloc: Global,
    number: u8,
    lot: ReadyLot,
    sockets: &mut Vec<SocketBox>,
    desk: &mut D,
    gate: &G,
    out: &mut K,
) -> Status
    requires program { lot.plan.program ≡ lot.code }
    requires enough { sites_of lot.plan.rows ≤ usable (length sockets.old.items) }
    ensures { Answers (DrillRunWants ⟦<SocketBox as Socket>⟧.told number lot.plan
        (record { sockets = sockets.old.items; stops = D.stops desk.old; asked = D.asked desk.old })
        (record { sockets = sockets.new.items; stops = D.stops desk.new; asked = D.asked desk.new }))
        (K.told out.old) (K.faults out.old) result (K.told out.new) (K.faults out.new) }
{
    let Ok(tested) = test(rt, alloc, lot, sockets, desk, gate) else {
        return no_memory(out);
    };
    match put_summary(number, &tested.plan, &tested.book, out) {
        Ok(()) => Status::Done,
        Err(_) => Status::WriteFault,
    }
}

/// Makes the texts of a number, runs the lot, and prints what it comes to, or the line of the first refusal.
pub(crate) fn drill<K: Sink, D: Desk, G: Gate, R: Threads + Wait + Sync>(
    rt: &R,
    alloc: Global,
    number: u8,
    sockets: &mut Vec<SocketBox>,
    desk: &mut D,
    gate: &G,
    out: &mut K,
) -> Status
    requires { number ≤ 200 }
    ensures { Answers (DrillComes ⟦<SocketBox as Socket>⟧.told number
        (record { sockets = sockets.old.items; stops = D.stops desk.old; asked = D.asked desk.old })
        (record { sockets = sockets.new.items; stops = D.stops desk.new; asked = D.asked desk.new }))
        (K.told out.old) (K.faults out.old) result (K.told out.new) (K.faults out.new) }
{
    let lot = match prepare(alloc, number) {
        Ok(lot) => lot,
        Err(refusal) => return put_refusal(out, &refusal),
    };
    let sites = lot.plan.sites();
    let have = usable(sockets.len());
    if sites > have {
        return put_refusal(out, &Refusal::TooFewSockets(sites, have));
    }
    run(rt, alloc, number, lot, sockets, desk, gate, out)
}
