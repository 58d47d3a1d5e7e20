//! The signals for which a reference stands (IEEE 1450-1999, clause 6, signal references).

ghost use Rattle.std.specs.Prelude.{◌≡◌, ◌<◌, if◌then◌else◌, None, Some, length, map, All, IfOk};
ghost use Rattle.std.specs.List.{list_all};
ghost use Rattle.stil_ast.specs.Meaning.GroupText.{Term};
ghost use Rattle.stil_ast.specs.Meaning.GroupReading.{terms_of};
ghost use Rattle.stil_ast.specs.Meaning.Members.{combined_text};
ghost use Rattle.stil_ast.specs.declared.fault.StilKind.TheVariants.{UnknownName};
ghost use Rattle.signal_groups.specs.Lexed.{name_ref, term_of, held_terms};
ghost use Rattle.signal_groups.specs.Lookup.{item_in, known_in, terms_kind, kind_in, signals_in, Resolves};

use crate::fault::RefFault;
use crate::items::{is_known, item_signals};
use crate::members::combined;
use crate::table::{SignalList, SignalTable};
use crate::term::{HeldTerm, Item, terms_of};
use std::alloc::{AllocError, Global};
use stil_ast::SigRef;

/// Whether each item names something.
pub(crate) fn are_known(
    alloc: Global,
    table: &SignalTable,
    terms: &[HeldTerm],
) -> Result<bool, AllocError>
    ensures { IfOk result (λ known. known
        ≡ list_all (λ (t : Term). known_in table.now t.item) (map term_of terms.now)) }
{
    for term in terms {
        if !is_known(alloc, table, &term.item)? {
            return Ok(false);
        }
    }
    Ok(true)
}

/// The signals of an item.
fn resolved_item(alloc: Global, table: &SignalTable, item: &Item) -> Result<SignalList, RefFault>
    ensures signals { Resolves (if known_in table.now (name_ref item.now) then None else Some UnknownName)
        (item_in table.now (name_ref item.now)) result }
    ensures within { IfOk result (λ signals. All (λ s. s < length table.now.texts) signals) }
{
    if !is_known(alloc, table, item)? {
        return Err(RefFault::UnknownName);
    }
    let signals = item_signals(alloc, table, item)?;
    Ok(SignalList::from_vec(signals))
}

/// The signals of items.
fn resolved_terms(
    alloc: Global,
    table: &SignalTable,
    terms: &[HeldTerm],
) -> Result<SignalList, RefFault>
    ensures signals { Resolves (terms_kind table.now (Some (map term_of terms.now)))
        (combined_text (item_in table.now) (Some (map term_of terms.now))) result }
    ensures within { IfOk result (λ signals. All (λ s. s < length table.now.texts) signals) }
{
    if !are_known(alloc, table, terms)? {
        return Err(RefFault::UnknownName);
    }
    let signals = combined(alloc, table, terms)?;
    Ok(SignalList::from_vec(signals))
}

/// The signals of a text.
fn resolved_text(alloc: Global, table: &SignalTable, text: &[u8]) -> Result<SignalList, RefFault>
    ensures signals { Resolves (terms_kind table.now (terms_of text.now))
        (combined_text (item_in table.now) (terms_of text.now)) result }
    ensures within { IfOk result (λ signals. All (λ s. s < length table.now.texts) signals) }
{
    match terms_of(alloc, text)? {
        Some(terms) => resolved_terms(alloc, table, terms.as_slice()),
        None => Err(RefFault::Shape),
    }
}

/// The signals of a reference.
pub(crate) fn resolved(
    alloc: Global,
    table: &SignalTable,
    reference: &SigRef,
) -> Result<SignalList, RefFault>
    ensures signals { Resolves (kind_in table.now reference.now) (signals_in table.now reference.now) result }
    ensures within { IfOk result (λ signals. All (λ s. s < length table.now.texts) signals) }
{
    match reference {
        SigRef::Name(name) => {
            let item = Item {
                name: name.name.as_slice(),
                range: name.range,
            };
            resolved_item(alloc, table, &item)
        }
        SigRef::Group(quoted) => resolved_text(alloc, table, quoted.text.as_slice()),
    }
}
