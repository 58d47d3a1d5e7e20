//! The first fault of the names to which a burst leads (IEEE 1450-1999, clause 16).

ghost use Rattle.std.specs.Prelude.{◌≡◌, ◌<◌, ◌∷◌, Some, None, length, reverse, slice_get};
ghost use Rattle.answers.specs.Answers.{Blames, Passes};
ghost use Rattle.stil_ast.specs.Faults.Found.{fault_at, unless, refuse_if, first_in};
ghost use Rattle.stil_ast.specs.Faults.BurstFaults.{burst_place, unknown_fault, cyclic_fault, mentions};
ghost use Rattle.stil_ast.specs.declared.fault.StilKind.TheVariants as kind;
ghost use Rattle.pattern_order.specs.Numbers.{IsFirst};
ghost use Rattle.pattern_order.specs.Walks.{is_known, Knows, Forwards, GoesOn};

use crate::bursts::BurstNames;
use crate::meaning::Meaning;
use crate::walk::{Frame, Mark, Step, Walk};
use std::alloc::Global;
use stil_ast::{Burst, StilKind, StilRefusal, told};

/// The refusal of a line in a PatternBurst block.
fn refused(alloc: Global, burst: &Burst, line: u32, kind: StilKind) -> StilRefusal
    ensures { Blames (Some (fault_at (burst_place burst.now line) kind)) result }
{
    told(alloc, b"PatternBurst", burst.name.as_slice(), line, kind)
}

/// Whether a name is one of a block, a pattern or a burst.
fn is_known(meaning: Meaning) -> bool
    ensures { result ≡ is_known meaning }
{
    !matches!(meaning, Meaning::Unknown)
}

/// Checks that a name is one of a block, a pattern or a burst.
fn check_known(alloc: Global, step: &Step) -> Result<(), StilRefusal>
    ensures { Passes (unless (is_known step.now.meaning)
        (fault_at (burst_place step.now.burst.now step.now.item.now.line) kind.UnknownName) None) result }
{
    if is_known(step.meaning) {
        Ok(())
    } else {
        Err(refused(alloc, step.burst, step.item.line, StilKind::UnknownName))
    }
}

/// Checks that a name doesn't lead back to a burst in which it stands.
fn check_forward(alloc: Global, step: &Step) -> Result<(), StilRefusal>
    ensures { Passes (refuse_if step.now.leads_back
        (fault_at (burst_place step.now.burst.now step.now.item.now.line) kind.Cyclic) None) result }
{
    if step.leads_back {
        Err(refused(alloc, step.burst, step.item.line, StilKind::Cyclic))
    } else {
        Ok(())
    }
}

/// Checks that the next name of an open burst is known, and goes into the burst that it names; or closes the burst
/// behind its last name.
fn know_next<'a>(
    alloc: Global,
    walk: &mut Walk<'_, 'a>,
    frame: Frame<'a>,
) -> Result<(), StilRefusal>
    requires { Knows walk.old.names.now walk.old.marks.items (frame ∷ reverse walk.old.frames.items) }
    ensures names { walk.new.names.now ≡ walk.old.names.now }
    ensures goes { GoesOn unknown_fault (Knows walk.old.names.now) walk.old.names.now
        (frame.entry ∷ reverse walk.old.frames.items) result walk.new.marks.items (reverse walk.new.frames.items) }
{
    if frame.next >= frame.burst.items.len() {
        walk.close(frame.number, Mark::Closed);
        return Ok(());
    }
    let step = walk.next_in(&frame);
    if let Err(refusal) = check_known(alloc, &step) {
        return Err(refusal);
    }
    walk.pass(frame, &step, 0)?;
    Ok(())
}

/// Checks that the next name of an open burst doesn't lead back, and goes into the burst that it names; or closes the
/// burst behind its last name.
fn forward_next<'a>(
    alloc: Global,
    walk: &mut Walk<'_, 'a>,
    frame: Frame<'a>,
) -> Result<(), StilRefusal>
    requires { Forwards walk.old.names.now walk.old.marks.items (frame ∷ reverse walk.old.frames.items) }
    ensures names { walk.new.names.now ≡ walk.old.names.now }
    ensures goes { GoesOn cyclic_fault (Forwards walk.old.names.now) walk.old.names.now
        (frame.entry ∷ reverse walk.old.frames.items) result walk.new.marks.items (reverse walk.new.frames.items) }
{
    if frame.next >= frame.burst.items.len() {
        walk.close(frame.number, Mark::Closed);
        return Ok(());
    }
    let step = walk.next_in(&frame);
    if let Err(refusal) = check_forward(alloc, &step) {
        return Err(refusal);
    }
    walk.pass(frame, &step, 0)?;
    Ok(())
}

/// Checks that all names to which a burst leads are known.
pub(crate) fn check_all_known(
    alloc: Global,
    names: &BurstNames,
    number: usize,
) -> Result<(), StilRefusal>
    requires { IsFirst names.now number }
    ensures { (b : Burst) → slice_get names.now.bursts number ≡ Some b
        → Passes (first_in unknown_fault (mentions names.now (Some b))) result }
{
    let mut walk = Walk::new(alloc, names, number)?;
    while let Some(frame) = walk.frames.pop() {
        if let Err(refusal) = know_next(alloc, &mut walk, frame) {
            return Err(refusal);
        }
    }
    Ok(())
}

/// Checks that no name to which a burst leads leads back.
pub(crate) fn check_all_forward(
    alloc: Global,
    names: &BurstNames,
    number: usize,
) -> Result<(), StilRefusal>
    requires { IsFirst names.now number }
    ensures { (b : Burst) → slice_get names.now.bursts number ≡ Some b
        → Passes (first_in cyclic_fault (mentions names.now (Some b))) result }
{
    let mut walk = Walk::new(alloc, names, number)?;
    while let Some(frame) = walk.frames.pop() {
        if let Err(refusal) = forward_next(alloc, &mut walk, frame) {
            return Err(refusal);
        }
    }
    Ok(())
}
