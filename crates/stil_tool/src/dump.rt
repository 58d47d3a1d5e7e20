//! `dump`: what is driven in the first try of a site's first die, as a value change dump.

ghost use Rattle.std.specs.Prelude.{◌≡◌, ◌<◌, ◌↔◌, IsTrue, length};
ghost use Rattle.tester_types.specs.Outside.{Loads};
ghost use Rattle.plan_rows.specs.Rows.{dies_at};
ghost use Rattle.tool_inputs.specs.Endings.{Answers};
ghost use Rattle.stil_tool.specs.Dump.{DumpRunWants, DumpWants};

use lot_plan::BoundPlan;
use std::alloc::Global;
use tester_types::{Shelf, Sink};
use tool_inputs::{ReadyLot, Refusal, Status, no_memory, prepare, put_refusal};
use vcd_dump::{TapeFault, tape_of, write_dump};

/// Whether a plan has a die at a site.
fn has_die(plan: &BoundPlan, site: u8) -> bool
    ensures { IsTrue result ↔ (0 < length (dies_at site plan.now.rows)) }
{
    if site >= plan.sites() {
        return false;
    }
    plan.dies(site) > 0
}

/// Runs the first try of a site's first die, and puts its drives.
fn run<K: Sink>(alloc: Global, lot: &ReadyLot, site: u8, out: &mut K) -> Status
    requires program { lot.now.plan.program ≡ lot.now.code }
    requires die { 0 < length (dies_at site lot.now.plan.rows) }
    ensures { Answers (DumpRunWants lot.now.plan site)
        (K.told out.old) (K.faults out.old) result (K.told out.new) (K.faults out.new) }
{
    let tape = match tape_of(alloc, &lot.code, &lot.plan, site) {
        Ok(tape) => tape,
        Err(TapeFault::NoMemory) => return no_memory(out),
        Err(TapeFault::TapeTooLong) => return put_refusal(out, &Refusal::TapeTooLong(site)),
    };
    match write_dump(&lot.code, &lot.plan, site, &tape, out) {
        Ok(()) => Status::Done,
        Err(_) => Status::WriteFault,
    }
}

/// Reads a program and a plan, and prints the value change dump of the first try of a site's first die, or the line of the first
/// refusal. The try follows the plan: its stop and its active faults count.
pub(crate) fn dump<F: Shelf, K: Sink>(
    alloc: Global,
    program: &str,
    plan: &str,
    site: u8,
    shelf: &mut F,
    out: &mut K,
) -> Status
    ensures answers { Answers (DumpWants
        (F.told shelf.old) (F.faults shelf.old) (F.faults shelf.new) program.now plan.now site)
        (K.told out.old) (K.faults out.old) result (K.told out.new) (K.faults out.new) }
    ensures loads { Loads (F.told shelf.old) (F.faults shelf.old) (F.told shelf.new) (F.faults shelf.new) }
{
    let lot = match prepare(alloc, program, plan, shelf) {
        Ok(lot) => lot,
        Err(refusal) => return put_refusal(out, &refusal),
    };
    if !has_die(&lot.plan, site) {
        return put_refusal(out, &Refusal::NoDie(Some(site)));
    }
    run(alloc, &lot, site, out)
}
