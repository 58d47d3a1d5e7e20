//! `parts` and `part`: into how many parts a plan must be cut, and the plan of a part.

ghost use Rattle.std.specs.Prelude.{◌<◌};
ghost use Rattle.tester_types.specs.Outside.{Loads};
ghost use Rattle.tool_inputs.specs.Endings.{Answers};
ghost use Rattle.lot_parts.specs.Parts.{PartsWants, CutWants};

use crate::load::read_plan;
use crate::words::Part;
use plan_parts::{part_text, parts_needed};
use std::alloc::Global;
use tester_types::{Piece, Shelf, Sink, put_all, put_each};
use tool_inputs::{Refusal, Status, load, put_refusal};

/// Prints into how many parts a plan must be cut at least, so that none has more sites with dies than a tester has sockets.
pub(crate) fn parts<F: Shelf, K: Sink>(
    alloc: Global,
    plan: &str,
    shelf: &mut F,
    out: &mut K,
) -> Status
    ensures answers { Answers (PartsWants (F.told shelf.old) (F.faults shelf.old) (F.faults shelf.new) plan.now)
        (K.told out.old) (K.faults out.old) result (K.told out.new) (K.faults out.new) }
    ensures loads { Loads (F.told shelf.old) (F.faults shelf.old) (F.told shelf.new) (F.faults shelf.new) }
{
    let rows = match read_plan(alloc, plan, shelf) {
        Ok(rows) => rows,
        Err(refusal) => return put_refusal(out, &refusal),
    };
    let line = [
        Piece::Number(u128::from(parts_needed(&rows))),
        Piece::Text(b"\n"),
    ];
    match put_each(out, &line) {
        Ok(()) => Status::Done,
        Err(_) => Status::WriteFault,
    }
}

/// Prints the plan of a part.
pub(crate) fn cut<F: Shelf, K: Sink>(
    alloc: Global,
    plan: &str,
    of: Part,
    shelf: &mut F,
    out: &mut K,
) -> Status
    requires { of.part < of.parts }
    ensures answers { Answers (CutWants (F.told shelf.old) (F.faults shelf.old) (F.faults shelf.new) plan.now
        of.parts of.part) (K.told out.old) (K.faults out.old) result (K.told out.new) (K.faults out.new) }
    ensures loads { Loads (F.told shelf.old) (F.faults shelf.old) (F.told shelf.new) (F.faults shelf.new) }
{
    let bytes = match load(alloc, plan, shelf) {
        Ok(bytes) => bytes,
        Err(refusal) => return put_refusal(out, &refusal),
    };
    let text = match part_text(alloc, bytes.as_slice(), of.parts, of.part) {
        Ok(text) => text,
        Err(fault) => return put_refusal(out, &Refusal::Plan(fault)),
    };
    match put_all(out, text.as_slice()) {
        Ok(()) => Status::Done,
        Err(_) => Status::WriteFault,
    }
}
