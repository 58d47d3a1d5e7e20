//! Assignments and arguments, `ref = data;` (IEEE 1450-1999, clauses 6 and 21).

ghost use Rattle.std.specs.Prelude.{◌≡◌, ◌++◌, ◌∷◌, [], ℕ, OnOk};
ghost use Rattle.stil_form.specs.Lexeme.{lexemes};
ghost use Rattle.stil_form.specs.Fronts.{ref_of};
ghost use Rattle.stil_ast.specs.Data.AssignmentCuts.{reference_of};
ghost use Rattle.pat_read.specs.Fault.{DataAnswers};
ghost use Rattle.pat_read.specs.References as references;
ghost use Rattle.pat_read.specs.References.{data_behind, as_assignment, assignment_of};

use crate::data::take_data;
use crate::fault::DataFault;
use std::alloc::{AllocError, Global};
use stil_ast::{
    AssignmentList, AssignmentParts, IndexRange, NameRef, Quoted, RefKind, SigRef, VecText,
};
use stil_form::{Part, Reference, SignKind, Source, Span, first_part, reference_front};
use tester_types::Items;

/// The indices of a reference, each at most 2^32 - 1.
fn range_of(span: Option<Span>) -> Result<Option<IndexRange>, DataFault>
    ensures { DataAnswers (λ range. range) result (references.range_of span) }
{
    match span {
        None => Ok(None),
        Some(span) => match span.indices() {
            Some((first, last)) => Ok(Some(IndexRange { first, last })),
            None => Err(DataFault::OutOfRange),
        },
    }
}

/// A reference that begins on this line.
pub fn read_ref(alloc: Global, line: u32, reference: Reference) -> Result<SigRef, DataFault>
    ensures { DataAnswers (λ found. found) result (references.ref_of line (ref_of reference.entry)) }
{
    match reference {
        Reference::Name(called, span) => {
            let range = range_of(span)?;
            let name = Items::from_slice(alloc, called)?;
            Ok(SigRef::Name(NameRef { name, range }))
        }
        Reference::Group(expression) => {
            let text = Items::from_slice(alloc, expression)?;
            Ok(SigRef::Group(Quoted { text, line }))
        }
    }
}

/// A reference that begins on this line, by its kind and its bytes.
fn lent_ref<'a>(line: u32, reference: Reference<'a>) -> Result<(RefKind, &'a [u8]), DataFault>
    ensures { DataAnswers (λ found. reference_of found.0 found.1.now) result
        (references.ref_of line (ref_of reference.entry)) }
{
    match reference {
        Reference::Name(called, span) => match range_of(span)? {
            Some(range) => Ok((RefKind::Indexed(range), called)),
            None => Ok((RefKind::Name, called)),
        },
        Reference::Group(expression) => Ok((RefKind::Group(line), expression)),
    }
}

/// Takes the data of a statement with this head, of which the part behind its reference is given.
fn take_behind(items: &mut VecText, head: Source, behind: Source) -> Result<(), DataFault>
    requires { items.old ≡ [] }
    ensures { DataAnswers (λ _. items.new) result
        (data_behind head.entry.bytes.now head.entry.tokens.now (lexemes behind.entry)) }
{
    match first_part(behind) {
        Some((Part::Sign(SignKind::Equals), rest)) => {
            let before = head.tokens.len().saturating_sub(rest.tokens.len());
            take_data(items, head.bytes, &head.tokens[before..])
        }
        _ => Err(DataFault::Shape),
    }
}

/// What `ref = data;` on this line says, by its head: its reference, while its data are taken.
pub(crate) fn assignment_of<'a>(
    items: &mut VecText,
    line: u32,
    has_block: bool,
    head: Source<'a>,
) -> Result<(RefKind, &'a [u8]), DataFault>
    requires { items.old ≡ [] }
    ensures { DataAnswers (λ found. as_assignment line found.0 found.1.now items.new) result
        (assignment_of head.entry.bytes.now head.entry.tokens.now line has_block (lexemes head.entry)) }
{
    let Some((reference, rest)) = reference_front(head) else {
        return Err(DataFault::Shape);
    };
    take_behind(items, head, rest)?;
    if has_block {
        return Err(DataFault::Shape);
    }
    let found = lent_ref(line, reference)?;
    Ok(found)
}

/// Adds an assignment of these parts.
pub(crate) fn add_assignment<'a>(
    read: &mut AssignmentList,
    reference: RefKind,
    bytes: &'a [u8],
    items: &'a VecText,
    line: u32,
) -> Result<(), AllocError>
    ensures { OnOk result (read.new ≡ read.old ++ as_assignment line reference bytes.now items.now ∷ []) }
{
    read.push_parts(AssignmentParts {
        reference,
        bytes,
        runs: items.as_slice(),
        line,
    })
}
