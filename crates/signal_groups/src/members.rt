//! Signals gathered in order, each once.

ghost use Rattle.std.specs.Prelude.{◌≡◌, ◌++◌, map, ◌==◌, ◌<◌, ◌&&◌, ℕ, List, [], ◌∷◌, Bool, true, false, not, filter, length, slice_index_or, All, IfOk, OnOk, if◌then◌else◌};
ghost use Rattle.std.specs.List.{list_any};
ghost use Rattle.stil_ast.specs.Meaning.Members.{added, removed, combined};
ghost use Rattle.signal_groups.specs.Lexed.{name_ref, term_of};
ghost use Rattle.signal_groups.specs.Lookup.{item_in};
ghost use Rattle.signal_groups.specs.Marks.{AreMarked};

use crate::items::item_signals;
use crate::table::SignalTable;
use crate::term::HeldTerm;
use std::alloc::{AllocError, Global};

/// Puts a signal behind the others, unless it is there.
fn add(members: &mut Vec<u16>, marks: &mut Vec<bool>, signal: u16) -> Result<(), AllocError>
    requires marked { AreMarked members.old.items marks.old.items }
    requires within { signal < length marks.old.items }
    ensures members { OnOk result (members.new.items ≡ added members.old.items (signal ∷ [])) }
    ensures marked { OnOk result (AreMarked members.new.items marks.new.items) }
    ensures count { length marks.new.items ≡ length marks.old.items }
{
    if marks[signal as usize] {
        return Ok(());
    }
    marks[signal as usize] = true;
    members.push(signal)?;
    Ok(())
}

/// Puts signals behind the others, each unless it is there.
pub(crate) fn add_all(
    members: &mut Vec<u16>,
    marks: &mut Vec<bool>,
    signals: &[u16],
) -> Result<(), AllocError>
    requires marked { AreMarked members.old.items marks.old.items }
    requires within { All (λ s. s < length marks.old.items) signals.now }
    ensures members { OnOk result (members.new.items ≡ added members.old.items signals.now) }
    ensures marked { OnOk result (AreMarked members.new.items marks.new.items) }
    ensures count { length marks.new.items ≡ length marks.old.items }
{
    for signal in signals {
        add(members, marks, *signal)?;
    }
    Ok(())
}

/// Takes the mark of a signal away.
fn unmark(marks: &mut Vec<bool>, signal: u16)
    requires { signal < length marks.old.items }
    ensures each { (s : ℕ) → slice_index_or marks.new.items s false
        ≡ (slice_index_or marks.old.items s false && not (signal == s)) }
    ensures count { length marks.new.items ≡ length marks.old.items }
{
    marks[signal as usize] = false;
}

/// Takes the marks of signals away.
fn unmark_all(marks: &mut Vec<bool>, signals: &[u16])
    requires { All (λ s. s < length marks.old.items) signals.now }
    ensures each { (s : ℕ) → slice_index_or marks.new.items s false
        ≡ (slice_index_or marks.old.items s false && not (list_any (λ g. g == s) signals.now)) }
    ensures count { length marks.new.items ≡ length marks.old.items }
{
    for signal in signals {
        unmark(marks, *signal);
    }
}

/// Puts a signal behind the others, if it is marked.
fn keep(kept: &mut Vec<u16>, marks: &[bool], signal: u16) -> Result<(), AllocError>
    ensures { OnOk result (kept.new.items ≡ (if slice_index_or marks.now signal false
        then kept.old.items ++ signal ∷ [] else kept.old.items)) }
{
    if marks.get(signal as usize).copied().unwrap_or(false) {
        kept.push(signal)?;
    }
    Ok(())
}

/// The signals that are marked.
fn kept(alloc: Global, members: &[u16], marks: &[bool]) -> Result<Vec<u16>, AllocError>
    ensures { IfOk result (λ kept. kept.items ≡ filter (λ m. slice_index_or marks.now m false) members.now) }
{
    let mut kept = Vec::new(alloc);
    for signal in members {
        keep(&mut kept, marks, *signal)?;
    }
    Ok(kept)
}

/// Takes signals away.
fn remove_all(
    alloc: Global,
    members: &mut Vec<u16>,
    marks: &mut Vec<bool>,
    gone: &[u16],
) -> Result<(), AllocError>
    requires marked { AreMarked members.old.items marks.old.items }
    requires within { All (λ s. s < length marks.old.items) gone.now }
    ensures members { OnOk result (members.new.items ≡ removed members.old.items gone.now) }
    ensures marked { OnOk result (AreMarked members.new.items marks.new.items) }
    ensures count { length marks.new.items ≡ length marks.old.items }
{
    unmark_all(marks, gone);
    let left = kept(alloc, members.as_slice(), marks.as_slice())?;
    *members = left;
    Ok(())
}

/// Adds or removes the signals of an item.
fn take_term(
    alloc: Global,
    table: &SignalTable,
    members: &mut Vec<u16>,
    marks: &mut Vec<bool>,
    term: &HeldTerm,
) -> Result<(), AllocError>
    requires marked { AreMarked members.old.items marks.old.items }
    requires count { length marks.old.items ≡ length table.now.texts }
    ensures members { OnOk result (members.new.items ≡ (if term.now.adds
        then added members.old.items (item_in table.now (name_ref term.now.item))
        else removed members.old.items (item_in table.now (name_ref term.now.item)))) }
    ensures marked { OnOk result (AreMarked members.new.items marks.new.items) }
    ensures count { length marks.new.items ≡ length marks.old.items }
{
    let signals = item_signals(alloc, table, &term.item)?;
    if term.adds {
        add_all(members, marks, signals.as_slice())
    } else {
        remove_all(alloc, members, marks, signals.as_slice())
    }
}

/// No marks, for so many signals.
pub(crate) fn no_marks(alloc: Global, count: usize) -> Result<Vec<bool>, AllocError>
    ensures count { IfOk result (λ marks. length marks.items ≡ count) }
    ensures none { IfOk result (λ marks. AreMarked [] marks.items) }
{
    let mut marks = Vec::new(alloc);
    for _ in 0..count {
        marks.push(false)?;
    }
    Ok(marks)
}

/// The signals of items that are added and removed from left to right.
pub(crate) fn combined(
    alloc: Global,
    table: &SignalTable,
    terms: &[HeldTerm],
) -> Result<Vec<u16>, AllocError>
    ensures signals { IfOk result (λ signals. signals.items ≡ combined (item_in table.now) (map term_of terms.now) []) }
    ensures within { IfOk result (λ signals. All (λ s. s < length table.now.texts) signals.items) }
{
    let mut members = Vec::new(alloc);
    let mut marks = no_marks(alloc, table.count())?;
    for term in terms {
        take_term(alloc, table, &mut members, &mut marks, term)?;
    }
    Ok(members)
}
