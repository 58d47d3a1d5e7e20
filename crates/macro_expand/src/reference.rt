//! The signals of an assignment's reference.

ghost use Rattle.std.specs.Prelude.{◌≡◌, ◌<◌, ◌+◌, None, length, IfSome, IfOk};
ghost use Rattle.signal_groups.specs.Found.{signals_found};
ghost use Rattle.signal_groups.specs.Lookup.{signals_at};
ghost use Rattle.signal_groups.specs.Table.{table_of};
ghost use Rattle.stil_ast.specs.Data.Assignments.{assignment_said};
ghost use Rattle.stil_ast.specs.Data.AssignmentCuts.{reference_of};
ghost use Rattle.stil_ast.specs.Meaning.Members.{members, reference_kind};
ghost use Rattle.stil_ast.specs.Meaning.Signals.{Names};
ghost use Rattle.macro_expand.specs.Referring.{IsResolved};

use crate::references::References;
use crate::standing::Standing;
use crate::trouble::Trouble;
use signal_groups::{FoundSignals, RefFault, SignalTable};
use std::alloc::{AllocError, Global};
use stil_ast::{AssignmentParts, NameRef, Quoted, RefKind, SigRef, StilKind};
use tester_types::Text;

/// The reference of this kind that these bytes are.
fn reference_of(alloc: Global, kind: RefKind, bytes: &[u8]) -> Result<SigRef, AllocError>
    ensures { IfOk result (λ r. r ≡ reference_of kind bytes.now) }
{
    let bytes = Text::from_slice(alloc, bytes)?;
    match kind {
        RefKind::Name => Ok(SigRef::Name(NameRef {
            name: bytes,
            range: None,
        })),
        RefKind::Indexed(range) => Ok(SigRef::Name(NameRef {
            name: bytes,
            range: Some(range),
        })),
        RefKind::Group(line) => Ok(SigRef::Group(Quoted { text: bytes, line })),
    }
}

/// The signals of a reference, or the fault of a statement on this line.
fn resolve_in<'t>(
    alloc: Global,
    signals: &'t SignalTable,
    s: &Standing,
    line: u32,
    reference: &SigRef,
) -> Result<FoundSignals<'t>, Trouble>
    ensures { (names : Names) → signals.now ≡ table_of names → IsResolved names reference.now s.now.body line result }
{
    match signals.resolve(alloc, reference) {
        Ok(found) => Ok(FoundSignals::Own(found)),
        Err(RefFault::NoMemory) => Err(Trouble::NoMemory),
        Err(RefFault::Shape) => Err(s.trouble(StilKind::Shape, line)),
        Err(RefFault::UnknownName) => Err(s.trouble(StilKind::UnknownName, line)),
    }
}

/// Where a table keeps the signals of the reference of an assignment, if it does; where it may is looked at first.
fn place_of(signals: &SignalTable, guess: Option<u16>, parts: &AssignmentParts) -> Option<u16>
    ensures signals { (names : Names) → signals.now ≡ table_of names → IfSome result (λ place.
        (reference_kind names (assignment_said parts.now).reference ≡ None)
        × (signals_at signals.now place ≡ members names (assignment_said parts.now).reference)) }
    ensures within { IfSome result (λ place. place < length signals.now.texts + length signals.now.members) }
{
    match parts.reference {
        RefKind::Name => signals.place(guess, parts.bytes),
        RefKind::Indexed(_) => None,
        RefKind::Group(_) => None,
    }
}

/// The signals of an assignment that a table doesn't keep under its reference, or the fault of that.
fn resolved_anew<'t>(
    alloc: Global,
    signals: &'t SignalTable,
    s: &Standing,
    parts: &AssignmentParts,
) -> Result<FoundSignals<'t>, Trouble>
    ensures { (names : Names) → signals.now ≡ table_of names
        → IsResolved names (assignment_said parts.now).reference s.now.body parts.now.line result }
{
    let reference = reference_of(alloc, parts.reference, parts.bytes)?;
    resolve_in(alloc, signals, s, parts.line, &reference)
}

/// The signals of an assignment, or the fault of its reference.
pub(crate) fn resolved<'t>(
    alloc: Global,
    signals: &'t SignalTable,
    s: &Standing,
    parts: &AssignmentParts,
) -> Result<FoundSignals<'t>, Trouble>
    ensures { (names : Names) → signals.now ≡ table_of names
        → IsResolved names (assignment_said parts.now).reference s.now.body parts.now.line result }
{
    match place_of(signals, None, parts) {
        Some(place) => Ok(signals.at(place)),
        None => resolved_anew(alloc, signals, s, parts),
    }
}

/// Notes where the next reference was found, if its body is walked again: in the passes of a Shift.
fn note(s: &Standing, place: u16, references: &mut References) -> Result<(), AllocError> {
    if s.in_shift && !s.without_pass {
        references.note(place)?;
    }
    Ok(())
}

/// The same of an assignment of a body, which is found where it was found in the pass before.
pub(crate) fn resolved_again<'t>(
    alloc: Global,
    signals: &'t SignalTable,
    s: &Standing,
    parts: &AssignmentParts,
    references: &mut References,
) -> Result<FoundSignals<'t>, Trouble>
    ensures { (names : Names) → signals.now ≡ table_of names
        → IsResolved names (assignment_said parts.now).reference s.now.body parts.now.line result }
{
    match place_of(signals, references.next(), parts) {
        Some(place) => {
            note(s, place, references)?;
            Ok(signals.at(place))
        }
        None => resolved_anew(alloc, signals, s, parts),
    }
}

/// The signals of an assignment, none where its reference has a fault.
pub(crate) fn members<'t>(
    alloc: Global,
    signals: &'t SignalTable,
    parts: &AssignmentParts,
) -> Result<FoundSignals<'t>, AllocError>
    ensures { IfOk result (λ found. (names : Names) → signals.now ≡ table_of names
        → signals_found found ≡ members names (assignment_said parts.now).reference) }
{
    if let Some(place) = place_of(signals, None, parts) {
        return Ok(signals.at(place));
    }
    let reference = reference_of(alloc, parts.reference, parts.bytes)?;
    members_in(alloc, signals, &reference)
}

/// The signals of a reference, none where it has a fault.
fn members_in<'t>(
    alloc: Global,
    signals: &'t SignalTable,
    reference: &SigRef,
) -> Result<FoundSignals<'t>, AllocError>
    ensures { IfOk result (λ found. (names : Names) → signals.now ≡ table_of names
        → signals_found found ≡ members names reference.now) }
{
    match signals.resolve(alloc, reference) {
        Ok(found) => Ok(FoundSignals::Own(found)),
        Err(RefFault::NoMemory) => Err(AllocError),
        Err(RefFault::Shape) => Ok(FoundSignals::Group(&[])),
        Err(RefFault::UnknownName) => Ok(FoundSignals::Group(&[])),
    }
}
