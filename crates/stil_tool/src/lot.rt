//! `lot`: the dies of a plan at its sites.

ghost use Rattle.std.specs.Prelude.{◌≡◌, ◌≤◌, length};
ghost use Rattle.tester_types.specs.Outside.{Loads};
ghost use Rattle.plan_rows.specs.Rows.{sites_of};
ghost use Rattle.tool_inputs.specs.Endings.{Answers};
ghost use Rattle.stil_tool.specs.Lot.{RunWants, LotWants, usable};

use crate::floor::{test, usable};
use datalog::print_lot;
use die_sim::{Socket, SocketBox};
use std::alloc::Global;
use std::sync::Wait;
use std::thread::Threads;
use tester_types::{Desk, Gate, Shelf, Sink};
use tool_inputs::{ReadyLot, Refusal, Status, no_memory, prepare, put_refusal};

/// Runs a lot, and prints what was recorded.
fn run<R: Threads + Wait + Sync, D: Desk, G: Gate, K: Sink>(
    rt: &R,
    alloc: Global,
    lot: ReadyLot,
    sockets: &mut Vec<SocketBox>,
    desk: &mut D,
    gate: &G,
    out: &mut K,
) -> Status
    requires program { lot.plan.program ≡ lot.code }
    requires enough { sites_of lot.plan.rows ≤ usable (length sockets.old.items) }
    ensures { Answers (RunWants ⟦<SocketBox as Socket>⟧.told lot.plan
        (record { sockets = sockets.old.items; stops = D.stops desk.old; asked = D.asked desk.old })
        (record { sockets = sockets.new.items; stops = D.stops desk.new; asked = D.asked desk.new }))
        (K.told out.old) (K.faults out.old) result (K.told out.new) (K.faults out.new) }
{
    let Ok(tested) = test(rt, alloc, lot, sockets, desk, gate) else {
        return no_memory(out);
    };
    match print_lot(tested.mem.code(), &tested.plan, &tested.book, out) {
        Ok(()) => Status::Done,
        Err(_) => Status::WriteFault,
    }
}

/// Runs the lot of a plan by a program, each site at the socket of its number, and prints its datalog, or the line of the
/// first refusal.
pub(crate) fn lot<F: Shelf, K: Sink, D: Desk, G: Gate, R: Threads + Wait + Sync>(
    rt: &R,
    alloc: Global,
    program: &str,
    plan: &str,
    shelf: &mut F,
    sockets: &mut Vec<SocketBox>,
    desk: &mut D,
    gate: &G,
    out: &mut K,
) -> Status
    ensures answers { Answers (LotWants ⟦<SocketBox as Socket>⟧.told
        (F.told shelf.old) (F.faults shelf.old) (F.faults shelf.new)
        (record { sockets = sockets.old.items; stops = D.stops desk.old; asked = D.asked desk.old })
        (record { sockets = sockets.new.items; stops = D.stops desk.new; asked = D.asked desk.new })
        program.now plan.now) (K.told out.old) (K.faults out.old) result (K.told out.new) (K.faults out.new) }
    ensures loads { Loads (F.told shelf.old) (F.faults shelf.old) (F.told shelf.new) (F.faults shelf.new) }
{
    let lot = match prepare(alloc, program, plan, shelf) {
        Ok(lot) => lot,
        Err(refusal) => return put_refusal(out, &refusal),
    };
    let sites = lot.plan.sites();
    let have = usable(sockets.len());
    if sites > have {
        return put_refusal(out, &Refusal::TooFewSockets(sites, have));
    }
    run(rt, alloc, lot, sockets, desk, gate, out)
}
