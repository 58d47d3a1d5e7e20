//! `grade`: a part of the grade of the plan's first die.

ghost use Rattle.std.specs.Prelude.{◌≡◌, ◌<◌};
ghost use Rattle.tester_types.specs.Outside.{Loads};
ghost use Rattle.plan_rows.specs.Rows.{sites_of};
ghost use Rattle.tool_inputs.specs.Endings.{Answers};
ghost use Rattle.lot_parts.specs.Words.{IsPart};
ghost use Rattle.lot_parts.specs.Grades.{GradeRunWants, GradeWants};

use crate::words::Part;
use fault_grade::first_net;
use grade_listing::print_grade;
use grade_parts::grade_part;
use std::alloc::Global;
use tester_types::{Shelf, Sink};
use tool_inputs::{ReadyLot, Refusal, Status, no_memory, prepare, put_refusal};

/// Grades the faults of a part, and prints what was found.
fn run<K: Sink>(alloc: Global, lot: &ReadyLot, of: Part, out: &mut K) -> Status
    requires program { lot.now.plan.program ≡ lot.now.code }
    requires die { 0 < sites_of lot.now.plan.rows }
    requires part { IsPart of.parts of.part }
    ensures { Answers (GradeRunWants lot.now.plan of.parts of.part)
        (K.told out.old) (K.faults out.old) result (K.told out.new) (K.faults out.new) }
{
    let Ok(grade) = grade_part(alloc, &lot.code, &lot.plan, of.parts, of.part) else {
        return no_memory(out);
    };
    match print_grade(first_net(&lot.plan), &grade, out) {
        Ok(()) => Status::Done,
        Err(_) => Status::WriteFault,
    }
}

/// Reads a program and a plan, and prints a part of the grade of the plan's first die, or the line of the first refusal. The
/// plan's faults, stops, bins and kept fails have no effect.
pub(crate) fn grade<F: Shelf, K: Sink>(
    alloc: Global,
    program: &str,
    plan: &str,
    of: Part,
    shelf: &mut F,
    out: &mut K,
) -> Status
    requires { IsPart of.parts of.part }
    ensures answers { Answers (GradeWants
        (F.told shelf.old) (F.faults shelf.old) (F.faults shelf.new) program.now plan.now of.parts of.part)
        (K.told out.old) (K.faults out.old) result (K.told out.new) (K.faults out.new) }
    ensures loads { Loads (F.told shelf.old) (F.faults shelf.old) (F.told shelf.new) (F.faults shelf.new) }
{
    let lot = match prepare(alloc, program, plan, shelf) {
        Ok(lot) => lot,
        Err(refusal) => return put_refusal(out, &refusal),
    };
    if lot.plan.sites() == 0 {
        return put_refusal(out, &Refusal::NoDie(None));
    }
    run(alloc, &lot, of, out)
}
