//! Reading the rows of a saved program.

ghost use Rattle.std.specs.Prelude.{◌≡◌, ◌<◌, ◌&&◌, ◌++◌, ◌∷◌, [], nat_le, nat_lt, length, ℕ, List, Ok, IfOk, MatchResult};
ghost use Rattle.std.specs.List.{take_while};
ghost use Rattle.std.specs.Int.{w16};
ghost use Rattle.packed_code.specs.RowBytes.{is_place as may_stand};
ghost use Rattle.page_code.specs.Changes.{last_row as the_last_row};
ghost use Rattle.page_code.specs.Fields.{Gives, Fails, number_at, checked, items_at};
ghost use Rattle.page_code.specs.Reading.{characters_at, change_from, changed_at, difference_at, whole_row_at, formed_row_at, spelled_row_at, row_at};

use crate::changes::{is_difference, is_shorter, last_row};
use crate::fault::{ReadError, Refusal};
use crate::read_fields::{bad, byte, number16, piece};
use crate::version::Version;
use packed_code::RowList;
use std::alloc::Global;
use text_bytes::is_character;

/// Whether a row may have this byte: a character, or 0 for a place without one.
fn is_place(byte: u8) -> bool
    ensures { result ≡ may_stand byte }
{
    byte == 0 || is_character(byte)
}

/// How many characters of a row, or places without one, stand at the front.
fn places(bytes: &[u8]) -> usize
    ensures { result ≡ length (take_while may_stand bytes.now) }
{
    bytes.iter().take_while(|byte| is_place(**byte)).count()
}

/// The characters of a row.
#[tactic(auto, unfolding(crate::specs::Reading::characters_at))]
fn characters(signals: usize, bytes: &[u8]) -> Result<(&[u8], &[u8]), ReadError>
    ensures read { Gives (λ x. (x.0.now, x.1.now)) result (characters_at signals bytes.now) }
    ensures size { IfOk result (λ x. length x.0.now ≡ signals) }
{
    let most = signals.min(bytes.len());
    let front = places(&bytes[..most]);
    if front < most {
        return Err(ReadError::Fault(Refusal::BadCode(bytes.len() - front)));
    }
    piece(signals, bytes)
}

/// A change of the last row: a signal of at least so much, and a character that differs from the one in its place.
#[tactic(auto, unfolding(crate::specs::Reading::change_from))]
fn change<'a>(
    least: usize,
    signals: usize,
    last: &[u8],
    bytes: &'a [u8],
) -> Result<(u16, u8, &'a [u8]), ReadError>
    requires { length last.now ≡ signals }
    ensures read { Gives (λ x. ((x.0, x.1), x.2.now)) result (change_from least signals last.now bytes.now) }
    ensures inside { IfOk result (λ x. x.0 < signals) }
{
    let (signal, rest) = number16(bytes)?;
    if (signal as usize) < least || signal as usize >= signals {
        return Err(bad(bytes));
    }
    let (character, after) = byte(rest)?;
    if !is_place(character) || character == last[signal as usize] {
        return Err(bad(rest));
    }
    Ok((signal, character, after))
}

/// The last row with so many changes in place.
fn changed<'a>(
    alloc: Global,
    signals: usize,
    last: &[u8],
    count: u16,
    bytes: &'a [u8],
) -> Result<(Vec<u8>, &'a [u8]), ReadError>
    requires { length last.now ≡ signals }
    ensures read { Gives (λ x. (x.0.items, x.1.now)) result (changed_at signals last.now count bytes.now) }
    ensures size { IfOk result (λ x. length x.0.items ≡ signals) }
{
    let mut row = Vec::from_slice(alloc, last)?;
    let mut least = 0;
    let mut rest = bytes;
    for _ in 0..count {
        let (signal, character, after) = change(least, signals, last, rest)?;
        row[signal as usize] = character;
        least = signal as usize + 1;
        rest = after;
    }
    Ok((row, rest))
}

/// How many changes come, from 1 to the number of signals.
fn change_count(signals: usize, bytes: &[u8]) -> Result<(u16, &[u8]), ReadError>
    ensures { Gives (λ x. (x.0, x.1.now)) result
        (checked (number_at w16) (λ count. nat_lt 0 count && nat_le count signals) bytes.now) }
{
    let (count, rest) = number16(bytes)?;
    if count == 0 || count as usize > signals {
        return Err(bad(bytes));
    }
    Ok((count, rest))
}

/// A row that is spelled as a difference, behind its form, which stands at `form`.
#[tactic(auto, unfolding(crate::specs::Reading::difference_at))]
fn difference<'a>(
    alloc: Global,
    form: &[u8],
    signals: usize,
    last: &[u8],
    bytes: &'a [u8],
) -> Result<(Vec<u8>, &'a [u8]), ReadError>
    requires { length last.now ≡ signals }
    ensures read { Gives (λ x. (x.0.items, x.1.now)) result
        (difference_at (length form.now) signals last.now bytes.now) }
    ensures size { IfOk result (λ x. length x.0.items ≡ signals) }
{
    let (count, rest) = change_count(signals, bytes)?;
    if !is_shorter(count as usize, signals) {
        return Err(bad(form));
    }
    changed(alloc, signals, last, count, rest)
}

/// A row that is spelled whole, behind its form, which stands at `form`.
#[tactic(auto, unfolding(crate::specs::Reading::whole_row_at))]
fn whole<'a>(
    alloc: Global,
    form: &[u8],
    signals: usize,
    rows: &RowList,
    bytes: &'a [u8],
) -> Result<(Vec<u8>, &'a [u8]), ReadError>
    ensures read { Gives (λ x. (x.0.items, x.1.now)) result
        (whole_row_at (length form.now) signals rows.now bytes.now) }
    ensures size { IfOk result (λ x. length x.0.items ≡ signals) }
{
    let (characters, rest) = characters(signals, bytes)?;
    if is_difference(rows, characters) {
        return Err(bad(form));
    }
    Ok((Vec::from_slice(alloc, characters)?, rest))
}

/// A row of version 2.
#[tactic(auto, unfolding(crate::specs::Reading::formed_row_at))]
fn formed<'a>(
    alloc: Global,
    signals: usize,
    rows: &RowList,
    bytes: &'a [u8],
) -> Result<(Vec<u8>, &'a [u8]), ReadError>
    requires { 0 < length rows.now → length (the_last_row rows.now) ≡ signals }
    ensures read { Gives (λ x. (x.0.items, x.1.now)) result (formed_row_at signals rows.now bytes.now) }
    ensures size { IfOk result (λ x. length x.0.items ≡ signals) }
{
    let (form, rest) = byte(bytes)?;
    match form {
        0 => whole(alloc, bytes, signals, rows, rest),
        1 if rows.len() > 0 => difference(alloc, bytes, signals, last_row(rows), rest),
        _ => Err(bad(bytes)),
    }
}

/// A row as it is spelled in a version.
fn spelled<'a>(
    alloc: Global,
    version: Version,
    signals: usize,
    rows: &RowList,
    bytes: &'a [u8],
) -> Result<(Vec<u8>, &'a [u8]), ReadError>
    requires { 0 < length rows.now → length (the_last_row rows.now) ≡ signals }
    ensures read { Gives (λ x. (x.0.items, x.1.now)) result (spelled_row_at version signals rows.now bytes.now) }
    ensures size { IfOk result (λ x. length x.0.items ≡ signals) }
{
    match version {
        Version::One => {
            let (characters, rest) = characters(signals, bytes)?;
            Ok((Vec::from_slice(alloc, characters)?, rest))
        }
        Version::Two => formed(alloc, signals, rows, bytes),
    }
}

/// A row behind those before it, which is put at their end.
#[tactic(auto, unfolding(crate::specs::Reading::row_at))]
fn row<'a>(
    alloc: Global,
    version: Version,
    signals: usize,
    rows: &mut RowList,
    bytes: &'a [u8],
) -> Result<&'a [u8], ReadError>
    requires { 0 < length rows.old → length (the_last_row rows.old) ≡ signals }
    ensures { MatchResult result
        (λ rest. (characters : List ℕ) × (row_at version signals rows.old bytes.now ≡ Ok (characters, rest.now))
        × (rows.new ≡ rows.old ++ characters ∷ []) × (length characters ≡ signals))
        (λ e. Fails e (row_at version signals rows.old bytes.now)) }
{
    let (row, rest) = spelled(alloc, version, signals, rows, bytes)?;
    let fresh = rows.insert(row)?;
    if !fresh {
        return Err(bad(bytes));
    }
    Ok(rest)
}

/// So many rows of a version.
pub(crate) fn rows(
    alloc: Global,
    version: Version,
    signals: usize,
    count: u32,
    bytes: &[u8],
) -> Result<(RowList, &[u8]), ReadError>
    ensures { Gives (λ x. (x.0, x.1.now)) result (items_at (row_at version signals) count [] bytes.now) }
{
    let mut rows = RowList::new(alloc);
    let mut rest = bytes;
    for _ in 0..count {
        let after = row(alloc, version, signals, &mut rows, rest)?;
        rest = after;
    }
    Ok((rows, rest))
}
