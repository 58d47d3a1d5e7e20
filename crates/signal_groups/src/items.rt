//! The signals of one item of a group expression.

ghost use Rattle.std.specs.Prelude.{◌≡◌, ◌++◌, if◌then◌else◌, is_some, slice_index_or, ◌<◌, ◌≤◌, ◌^◌, ℕ, List, [], ◌∷◌, None, length, slice_index, All, IfOk, OnOk};
ghost use Rattle.std.specs.List.{list_any, filter_map, list_all};
ghost use Rattle.text_bytes.specs.Limits.{most_signals};
ghost use Rattle.stil_ast.specs.Data.Texts.{indices, indexed};
ghost use Rattle.stil_ast.specs.Meaning.Members.{is_based_on};
ghost use Rattle.signal_groups.specs.Lexed.{name_ref};
ghost use Rattle.signal_groups.specs.Table.{IsSound};
ghost use Rattle.signal_groups.specs.Lookup.{number_in, based_in, ranged_in, item_in, known_with, known_in};

use crate::table::SignalTable;
use crate::term::Item;
use itoa::Buffer;
use std::alloc::{AllocError, Global};
use stil_ast::IndexRange;

/// `name[index]`.
pub fn indexed(alloc: Global, name: &[u8], index: u32) -> Result<Vec<u8>, AllocError>
    ensures { IfOk result (λ text. text.items ≡ indexed name.now index) }
{
    let mut buffer = Buffer::new();
    let mut text = Vec::from_slice(alloc, name)?;
    text.push(b'[')?;
    text.extend_from_slice(buffer.format(index).as_bytes())?;
    text.push(b']')?;
    Ok(text)
}

/// How many indices a range has.
pub fn index_count(range: IndexRange) -> u64
    ensures count { result ≡ length (indices range) }
    ensures some { 0 < result }
    ensures few { result ≤ 2 ^ 32 }
{
    if range.first <= range.last {
        u64::from(range.last - range.first) + 1
    } else {
        u64::from(range.first - range.last) + 1
    }
}

/// The index at a place of a range, which counts upwards or downwards.
pub fn index_at(range: IndexRange, place: u64) -> u32
    requires { place < length (indices range) }
    ensures { result ≡ slice_index (indices range) place }
{
    if range.first <= range.last {
        range.first + place as u32
    } else {
        range.first - place as u32
    }
}

/// The number of the signal of a name and an index.
fn number_at(
    alloc: Global,
    table: &SignalTable,
    name: &[u8],
    index: u32,
) -> Result<Option<u16>, AllocError>
    ensures { IfOk result (λ number. number ≡ number_in table.now.texts (indexed name.now index)) }
{
    let text = indexed(alloc, name, index)?;
    Ok(table.number(text.as_slice()))
}

/// Puts the signal of a name and an index behind the others, if there is one.
fn add_at(
    alloc: Global,
    table: &SignalTable,
    found: &mut Vec<u16>,
    name: &[u8],
    index: u32,
) -> Result<(), AllocError>
    ensures { OnOk result ((is : List ℕ) →
        found.new.items ++ filter_map (λ i. number_in table.now.texts (indexed name.now i)) is
        ≡ found.old.items ++ filter_map (λ i. number_in table.now.texts (indexed name.now i)) (index ∷ is)) }
{
    if let Some(signal) = number_at(alloc, table, name, index)? {
        found.push(signal)?;
    }
    Ok(())
}

/// The signals of a name with indices.
fn ranged(
    alloc: Global,
    table: &SignalTable,
    name: &[u8],
    range: IndexRange,
) -> Result<Vec<u16>, AllocError>
    ensures { IfOk result (λ found. found.items
        ≡ filter_map (λ i. number_in table.now.texts (indexed name.now i)) (indices range)) }
{
    let mut found = Vec::new(alloc);
    for place in 0..index_count(range) {
        add_at(alloc, table, &mut found, name, index_at(range, place))?;
    }
    Ok(found)
}

/// Puts a signal behind the others, if it was declared with brackets under this name.
fn add_based(
    table: &SignalTable,
    found: &mut Vec<u16>,
    name: &[u8],
    signal: usize,
) -> Result<(), AllocError>
    requires within { signal < length table.now.texts }
    requires few { length table.now.texts ≤ most_signals }
    ensures { OnOk result (found.new.items ≡ (if is_based_on name.now (slice_index_or table.now.bases signal None)
        then found.old.items ++ signal ∷ [] else found.old.items)) }
{
    if table.is_based_on(signal, name) {
        found.push(signal as u16)?;
    }
    Ok(())
}

/// The signals that were declared with brackets under this name.
fn based(alloc: Global, table: &SignalTable, name: &[u8]) -> Result<Vec<u16>, AllocError>
    requires { IsSound table.now }
    ensures { IfOk result (λ found. found.items ≡ based_in table.now.bases name.now) }
{
    let mut found = Vec::new(alloc);
    for signal in 0..table.count() {
        add_based(table, &mut found, name, signal)?;
    }
    Ok(found)
}

/// The signals of a name without indices.
fn plain(alloc: Global, table: &SignalTable, name: &[u8]) -> Result<Vec<u16>, AllocError>
    requires { IsSound table.now }
    ensures { IfOk result (λ found. found.items ≡ ranged_in table.now name.now None) }
{
    if let Some(signal) = table.number(name) {
        return Vec::from_slice(alloc, &[signal]);
    }
    match table.group(name) {
        Some(group) => Vec::from_slice(alloc, table.members(group)),
        None => based(alloc, table, name),
    }
}

/// The signals of an item.
fn signals_of(alloc: Global, table: &SignalTable, item: &Item) -> Result<Vec<u16>, AllocError>
    requires { IsSound table.now }
    ensures { IfOk result (λ found. found.items ≡ item_in table.now (name_ref item.now)) }
{
    match item.range {
        None => plain(alloc, table, item.name),
        Some(range) => ranged(alloc, table, item.name, range),
    }
}

/// The signals of an item.
pub(crate) fn item_signals(
    alloc: Global,
    table: &SignalTable,
    item: &Item,
) -> Result<Vec<u16>, AllocError>
    ensures found { IfOk result (λ found. found.items ≡ item_in table.now (name_ref item.now)) }
    ensures within { IfOk result (λ found. All (λ s. s < length table.now.texts) found.items) }
{
    table.soundness();
    let found = signals_of(alloc, table, item)?;
    Ok(found)
}

/// Whether a signal was declared with brackets under this name.
fn has_base(table: &SignalTable, name: &[u8]) -> bool
    requires { IsSound table.now }
    ensures { result ≡ list_any (is_based_on name.now) table.now.bases }
{
    for signal in 0..table.count() {
        if table.is_based_on(signal, name) {
            return true;
        }
    }
    false
}

/// Whether a name without indices names something.
fn is_plain_known(table: &SignalTable, name: &[u8]) -> bool
    ensures { result ≡ known_with table.now name.now None }
{
    table.soundness();
    if table.number(name).is_some() {
        return true;
    }
    if table.group(name).is_some() {
        return true;
    }
    has_base(table, name)
}

/// Whether there is a signal at each index of a range.
fn is_range_known(
    alloc: Global,
    table: &SignalTable,
    name: &[u8],
    range: IndexRange,
) -> Result<bool, AllocError>
    ensures { IfOk result (λ known. known
        ≡ list_all (λ i. is_some (number_in table.now.texts (indexed name.now i))) (indices range)) }
{
    for place in 0..index_count(range) {
        if number_at(alloc, table, name, index_at(range, place))?.is_none() {
            return Ok(false);
        }
    }
    Ok(true)
}

/// Whether an item names something.
pub(crate) fn is_known(alloc: Global, table: &SignalTable, item: &Item) -> Result<bool, AllocError>
    ensures { IfOk result (λ known. known ≡ known_in table.now (name_ref item.now)) }
{
    match item.range {
        None => Ok(is_plain_known(table, item.name)),
        Some(range) => is_range_known(alloc, table, item.name, range),
    }
}
