//! How often a Shift runs its body, and with which data (IEEE 1450-1999, clauses 21 and 24).

ghost use Rattle.std.specs.Prelude.{◌≡◌, ◌<◌, ◌++◌, ℕ, List, map, replicate, length, slice_index_or, IfOk, IfSome, OnOk};
ghost use Rattle.stil_ast.specs.Meaning.Arguments.{Argument, argument_of, Entry, given, padding, entry_of};
ghost use Rattle.stil_ast.specs.Meaning.Shift.{passes, column};
ghost use Rattle.scan_chain.specs.Held.{greatest, entry_at};

use std::alloc::{AllocError, Global};
use tester_types::{Items, NoMemory};

/// The data of one signal for the passes of a Shift. None stands for what the signal had before the Shift.
pub type ColumnList = Items<Option<u8>>;

/// The greatest of some numbers, 0 where there is none.
fn greatest(numbers: &[usize]) -> usize
    ensures { result ≡ greatest numbers.now }
{
    let mut most = 0;
    for number in numbers {
        most = most.max(*number);
    }
    most
}

/// How often a Shift runs its body, where so many characters are left of the arguments of the signals that take some.
pub fn passes(left: &[usize]) -> usize
    ensures greatest { result ≡ greatest left.now }
    ensures passes { (signals : List ℕ) (args : List Argument)
        → left.now ≡ map (λ signal. length (argument_of args signal).left) signals → result ≡ passes signals args }
{
    greatest(left)
}

/// Puts characters behind the others.
fn add_given(entries: &mut Vec<Option<u8>>, left: &[u8]) -> Result<(), AllocError>
    ensures { OnOk result (map entry_of entries.new.items ≡ map entry_of entries.old.items ++ map given left.now) }
{
    for character in left {
        entries.push(Some(*character))?;
    }
    Ok(())
}

/// Puts so many entries of padding behind the others.
fn add_padding(entries: &mut Vec<Option<u8>>, count: usize) -> Result<(), AllocError>
    ensures { OnOk result (map entry_of entries.new.items ≡ map entry_of entries.old.items ++ replicate count padding) }
{
    for _ in 0..count {
        entries.push(None)?;
    }
    Ok(())
}

/// The data of a signal for so many passes of a Shift: what is left of its argument, and padding where that is too
/// short, behind it for an Out signal and else before it. What is longer stays as it is.
pub fn column(alloc: Global, left: &[u8], passes: usize, out: bool) -> Result<ColumnList, NoMemory>
    ensures { IfOk result (λ entries. map entry_of entries ≡ column out passes (map given left.now)) }
{
    let mut entries = Vec::new(alloc);
    let short = passes.saturating_sub(left.len());
    if out {
        add_given(&mut entries, left)?;
        add_padding(&mut entries, short)?;
    } else {
        add_padding(&mut entries, short)?;
        add_given(&mut entries, left)?;
    }
    Ok(ColumnList::from_vec(entries))
}

/// No command calls it: the place, in what is left of a signal's argument, of the character that a pass of a Shift takes, from
/// 0. None stands for what the signal had before the Shift. So a column of data that are kept as runs needs no memory.
pub fn column_place(left: usize, passes: usize, out: bool, pass: usize) -> Option<usize>
    ensures place { (entries : List Entry) → length entries ≡ left
        → slice_index_or (column out passes entries) pass padding ≡ entry_at entries result }
    ensures within { IfSome result (λ place. place < left) }
{
    let before = if out { 0 } else { passes.saturating_sub(left) };
    if pass >= before && pass - before < left {
        Some(pass - before)
    } else {
        None
    }
}
