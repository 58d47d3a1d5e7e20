//! The signals of Signals blocks, up to their first fault (IEEE 1450-1999, clause 14).

ghost use Rattle.std.specs.Prelude.{◌≡◌, false, ℕ, List, [], None, Some, map, codes, IfOk, OnOk};
ghost use Rattle.std.specs.List.{list_any, flat_map};
ghost use Rattle.text_bytes.specs.Texts.{key_texts};
ghost use Rattle.answers.specs.Answers.{Blames, Gives};
ghost use Rattle.answers.specs.Reading.{stepping};
ghost use Rattle.stil_ast.specs.Data.Texts.{same, indices, indexed};
ghost use Rattle.stil_ast.specs.Faults.Found.{fault_at};
ghost use Rattle.stil_ast.specs.Meaning.Signals.{signals_place, declared_as, declared};
ghost use Rattle.signal_groups.specs.Begun.{Begun, begun_in, signal_said, with_signal, signal_as, decl_said};

use crate::items::{index_at, index_count, indexed};
use crate::table::Declared;
use indexmap::IndexSet;
use std::alloc::{AllocError, Global};
use stil_ast::{IndexRange, SignalDecl, StilKind, StilRefusal, told};
use tester_types::{Items, Text};
use text_bytes::{LONGEST_NAME, MOST_SIGNALS};

/// The refusal of a declaration.
fn refused(alloc: Global, decl: &SignalDecl, kind: StilKind) -> StilRefusal
    ensures { Blames (Some (fault_at (signals_place decl.now.line) kind)) result }
{
    told(alloc, b"Signals", &[], decl.line, kind)
}

/// Whether a text stands among these.
fn has_text(texts: &IndexSet<Vec<u8>>, text: &[u8]) -> bool
    ensures { result ≡ list_any (λ t. same t text.now) (key_texts texts.now.keys) }
{
    texts.contains(text)
}

/// Puts a signal behind the others.
fn push(
    texts: &mut IndexSet<Vec<u8>>,
    kept: &mut Vec<Declared>,
    text: Vec<u8>,
    base: Option<Text>,
    decl: &SignalDecl,
) -> Result<(), AllocError>
    requires { list_any (λ t. same t text.items) (key_texts texts.old.keys) ≡ false }
    ensures { OnOk result (begun_in texts.new.keys kept.new.items
        ≡ with_signal (begun_in texts.old.keys kept.old.items) (signal_as decl.now text.items base)) }
{
    kept.push(Declared {
        base,
        direction: decl.direction,
    })?;
    texts.insert(text)?;
    Ok(())
}

/// Takes a signal of a declaration.
fn take(
    alloc: Global,
    texts: &mut IndexSet<Vec<u8>>,
    kept: &mut Vec<Declared>,
    text: Vec<u8>,
    base: Option<Text>,
    decl: &SignalDecl,
) -> Result<(), StilRefusal>
    ensures { Gives (λ _. begun_in texts.new.keys kept.new.items)
        (signal_said (begun_in texts.old.keys kept.old.items) (signal_as decl.now text.items base)) result }
{
    if has_text(texts, text.as_slice()) {
        return Err(refused(alloc, decl, StilKind::Twice));
    }
    if text.len() > LONGEST_NAME {
        return Err(refused(alloc, decl, StilKind::OutOfRange));
    }
    if texts.len() >= MOST_SIGNALS {
        return Err(refused(alloc, decl, StilKind::OutOfRange));
    }
    push(texts, kept, text, base, decl)?;
    Ok(())
}

/// Takes the signal of a name and an index.
fn take_at(
    alloc: Global,
    texts: &mut IndexSet<Vec<u8>>,
    kept: &mut Vec<Declared>,
    index: u32,
    decl: &SignalDecl,
) -> Result<(), StilRefusal>
    ensures { Gives (λ _. begun_in texts.new.keys kept.new.items)
        (signal_said (begun_in texts.old.keys kept.old.items)
        (signal_as decl.now (indexed decl.now.name index) (Some decl.now.name))) result }
{
    let text = indexed(alloc, decl.name.as_slice(), index)?;
    let base = Items::from_slice(alloc, decl.name.as_slice())?;
    take(alloc, texts, kept, text, Some(base), decl)
}

/// Takes the signals of a declaration with indices.
fn take_range(
    alloc: Global,
    texts: &mut IndexSet<Vec<u8>>,
    kept: &mut Vec<Declared>,
    range: IndexRange,
    decl: &SignalDecl,
) -> Result<(), StilRefusal>
    ensures { Gives (λ _. begun_in texts.new.keys kept.new.items)
        (stepping signal_said (begun_in texts.old.keys kept.old.items) (declared_as decl.now (Some range))) result }
{
    for place in 0..index_count(range) {
        match take_at(alloc, texts, kept, index_at(range, place), decl) {
            Ok(()) => {}
            Err(refusal) => return Err(refusal),
        }
    }
    Ok(())
}

/// Takes the signals of a declaration.
fn take_declared(
    alloc: Global,
    texts: &mut IndexSet<Vec<u8>>,
    kept: &mut Vec<Declared>,
    decl: &SignalDecl,
) -> Result<(), StilRefusal>
    ensures { Gives (λ _. begun_in texts.new.keys kept.new.items)
        (decl_said (begun_in texts.old.keys kept.old.items) decl.now) result }
{
    match decl.range {
        None => {
            let text = Vec::from_slice(alloc, decl.name.as_slice())?;
            take(alloc, texts, kept, text, None, decl)
        }
        Some(range) => take_range(alloc, texts, kept, range, decl),
    }
}

/// Takes the signals of declarations, one declaration after another.
fn take_each(
    alloc: Global,
    texts: &mut IndexSet<Vec<u8>>,
    kept: &mut Vec<Declared>,
    decls: &[SignalDecl],
) -> Result<(), StilRefusal>
    ensures { Gives (λ _. begun_in texts.new.keys kept.new.items)
        (stepping decl_said (begun_in texts.old.keys kept.old.items) decls.now) result }
{
    for decl in decls {
        take_declared(alloc, texts, kept, decl)?;
    }
    Ok(())
}

/// Takes the signals of all declarations.
pub(crate) fn take_signals(
    alloc: Global,
    texts: &mut IndexSet<Vec<u8>>,
    kept: &mut Vec<Declared>,
    decls: &[SignalDecl],
) -> Result<(), StilRefusal>
    ensures { Gives (λ _. begun_in texts.new.keys kept.new.items)
        (stepping signal_said (begun_in texts.old.keys kept.old.items) (flat_map declared decls.now)) result }
{
    take_each(alloc, texts, kept, decls)
}
