//! `grade`: the first failing cycle of each single stuck-at fault of the plan's first die.

ghost use Rattle.std.specs.Prelude.{◌≡◌, ◌<◌};
ghost use Rattle.tester_types.specs.Outside.{Loads};
ghost use Rattle.plan_rows.specs.Rows.{sites_of};
ghost use Rattle.tool_inputs.specs.Endings.{Answers};
ghost use Rattle.stil_tool.specs.Grade.{GradeRunWants, GradeWants};

use fault_grade::{first_net, grade as grade_faults};
use grade_listing::print_grade;
use std::alloc::Global;
use std::sync::Wait;
use std::thread::Threads;
use tester_types::{Gate, Shelf, Sink};
use tool_inputs::{ReadyLot, Refusal, Status, no_memory, prepare, put_refusal};

/// How many threads try faults beside each other.
const WORKERS: u8 = 8;

/// Grades the faults of the plan's first die, and prints what was found.
fn run<R: Threads + Wait + Sync, G: Gate, K: Sink>(
    rt: &R,
    alloc: Global,
    lot: &ReadyLot,
    gate: &G,
    out: &mut K,
) -> Status
    requires program { lot.now.plan.program ≡ lot.now.code }
    requires die { 0 < sites_of lot.now.plan.rows }
    ensures { Answers (GradeRunWants lot.now.plan)
        (K.told out.old) (K.faults out.old) result (K.told out.new) (K.faults out.new) }
{
    let Ok(grade) = grade_faults(rt, alloc, &lot.code, &lot.plan, WORKERS, gate) else {
        return no_memory(out);
    };
    match print_grade(first_net(&lot.plan), &grade, out) {
        Ok(()) => Status::Done,
        Err(_) => Status::WriteFault,
    }
}

/// Reads a program and a plan, and prints the grade of the plan's first die, or the line of the first refusal. The plan's
/// faults, stops, bins and kept fails have no effect. It may wait for its threads.
pub(crate) fn grade<R: Threads + Wait + Sync, F: Shelf, G: Gate, K: Sink>(
    rt: &R,
    alloc: Global,
    program: &str,
    plan: &str,
    shelf: &mut F,
    gate: &G,
    out: &mut K,
) -> Status
    ensures answers { Answers (GradeWants
        (F.told shelf.old) (F.faults shelf.old) (F.faults shelf.new) program.now plan.now)
        (K.told out.old) (K.faults out.old) result (K.told out.new) (K.faults out.new) }
    ensures loads { Loads (F.told shelf.old) (F.faults shelf.old) (F.told shelf.new) (F.faults shelf.new) }
{
    let lot = match prepare(alloc, program, plan, shelf) {
        Ok(lot) => lot,
        Err(refusal) => return put_refusal(out, &refusal),
    };
    if lot.plan.sites() == 0 {
        return put_refusal(out, &Refusal::NoDie(None));
    }
    run(rt, alloc, &lot, gate, out)
}
