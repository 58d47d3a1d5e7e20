//! The run of a lot at its sockets.

ghost use Rattle.std.specs.Prelude.{◌≡◌, ◌≤◌, IfOk, length};
ghost use Rattle.plan_rows.specs.Rows.{sites_of};
ghost use Rattle.stil_tool.specs.Lot.{usable, IsBook};

use die_sim::{Socket, SocketBox};
use floor_core::BookState;
use lot_plan::BoundPlan;
use pattern_mem::PatternMem;
use std::alloc::Global;
use std::sync::Wait;
use std::thread::Threads;
use tester_run::run_lot;
use tester_types::{Desk, Gate, NoMemory};
use text_bytes::MOST_SITES;
use tool_inputs::ReadyLot;

/// How many pages of the program are kept decoded.
const FRAMES: u16 = 64;

/// A lot that was run: its program in memory, its plan, and the book of its records.
#[derive(Drop)]
pub(crate) struct TestedLot {
    pub(crate) mem: PatternMem,
    pub(crate) plan: BoundPlan,
    pub(crate) book: BookState,
}

/// How many of so many sockets a lot can have.
pub(crate) fn usable(sockets: usize) -> u8
    ensures { result ≡ usable sockets }
{
    sockets.min(MOST_SITES) as u8
}

/// Runs a lot.
pub(crate) fn test<R: Threads + Wait + Sync, D: Desk, G: Gate>(
    rt: &R,
    alloc: Global,
    lot: ReadyLot,
    sockets: &mut Vec<SocketBox>,
    desk: &mut D,
    gate: &G,
) -> Result<TestedLot, NoMemory>
    requires program { lot.plan.program ≡ lot.code }
    requires enough { sites_of lot.plan.rows ≤ usable (length sockets.old.items) }
    ensures plan { IfOk result (λ tested. tested.plan ≡ lot.plan) }
    ensures program { IfOk result (λ tested. tested.mem.code ≡ lot.plan.program) }
    ensures book { IfOk result (λ tested. IsBook ⟦<SocketBox as Socket>⟧.told lot.plan
        (record { sockets = sockets.old.items; stops = D.stops desk.old; asked = D.asked desk.old })
        (record { sockets = sockets.new.items; stops = D.stops desk.new; asked = D.asked desk.new }) tested.book) }
{
    let ReadyLot { code, plan } = lot;
    let (mem, passes) = PatternMem::new(alloc, code, FRAMES, plan.sites())?;
    let book = run_lot(rt, alloc, &mem, passes, &plan, sockets, desk, gate)?;
    Ok(TestedLot { mem, plan, book })
}
