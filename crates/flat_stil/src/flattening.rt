//! The flat text of a code.

ghost use Rattle.std.specs.Prelude.{◌≡◌, ◌≤◌, ◌⊎◌, true, IfOk, IfErr, OnOk, MatchResult, length};
ghost use Rattle.text_bytes.specs.Limits.{most_bytes};
ghost use Rattle.flat_parts.specs.Order.{table_order, row_order};
ghost use Rattle.packed_code.specs.Conditions.{IsProgram};
ghost use Rattle.flat_parts.specs.FlatText.{flat_lines, flat_text, has_plain_names};
ghost use Rattle.flat_stil.specs.FlatFault.{IsFlat, MeansSame, IsTooLong, IsTooFlat, IsBeyondLimits, IsCause};
ghost use Rattle.flat_stil.specs.Working.{prints, IsWritten, IsJudged, Judges, Answers};
ghost use Rattle.flat_stil.specs.declared.fault.FlatFault.TheVariants as fault;

use crate::fault::FlatFault;
use crate::numbers::Numbers;
use crate::order::{all_rows, all_tables};
use crate::patterns::{put_bursts, put_execs, put_patterns};
use crate::rows::put_rows;
use crate::sheet::{Part, Sheet};
use crate::signals::put_signals;
use crate::tables::put_timings;
use crate::text::FlatText;
use packed_code::Code;
use std::alloc::Global;
use stil_ast::StilRefusal;
use stil_program::program;
use tester_types::NoMemory;
use text_bytes::MOST_BYTES;

/// Writes all lines.
fn put_lines(
    alloc: Global,
    sheet: &mut Sheet,
    code: &Code,
    tables: &Numbers,
    rows: &Numbers,
) -> Result<(), NoMemory>
    requires tables { tables.now ≡ table_order code.now }
    requires rows { rows.now ≡ row_order code.now }
    ensures { OnOk result (sheet.new ≡ prints sheet.old (flat_lines code.now)) }
{
    sheet.put_line(&[Part::Text(b"STIL 1.0;")]);
    put_signals(sheet, code);
    put_timings(alloc, sheet, code, tables.as_slice())?;
    put_rows(sheet, code, rows.as_slice());
    put_patterns(sheet, code, tables, rows);
    put_bursts(sheet, code);
    put_execs(sheet, code);
    Ok(())
}

/// The flat text of a code, or none where it is too long.
fn written(alloc: Global, code: &Code) -> Result<Option<FlatText>, NoMemory>
    ensures { IfOk result (IsWritten code.now) }
{
    let tables = all_tables(alloc, code)?;
    let rows = all_rows(alloc, code)?;
    let mut sheet = Sheet::new(alloc, MOST_BYTES)?;
    put_lines(alloc, &mut sheet, code, &tables, &rows)?;
    Ok(sheet.into_text())
}

/// Whether a text has a fault.
fn has_fault(alloc: Global, bytes: &[u8]) -> Result<bool, NoMemory>
    requires { length bytes.now ≤ most_bytes }
    ensures { IfOk result (IsJudged bytes.now) }
{
    match program(alloc, bytes) {
        Ok(_) => Ok(false),
        Err(StilRefusal::Fault(_)) => Ok(true),
        Err(StilRefusal::NoMemory) => Err(NoMemory),
    }
}

/// A text, unless it has a fault.
fn judged(alloc: Global, text: FlatText) -> Result<FlatText, FlatFault>
    requires { length text ≤ most_bytes }
    ensures { Judges text result }
{
    match has_fault(alloc, text.as_slice()) {
        Ok(false) => Ok(text),
        Ok(true) => Err(FlatFault::TooFlat),
        Err(_) => Err(FlatFault::NoMemory),
    }
}

/// The flat text of a code, or why it has none.
fn flattened(alloc: Global, code: &Code) -> Result<FlatText, FlatFault>
    ensures answers { Answers code.now result }
    ensures program { IsProgram code.now }
{
    let _ = code.signals();
    match written(alloc, code) {
        Ok(Some(text)) => judged(alloc, text),
        Ok(None) => Err(FlatFault::TooLong),
        Err(_) => Err(FlatFault::NoMemory),
    }
}

/// The flat text of a code: a STIL text without macros, expressions, groups and shifts, in which each loop of the code is
/// a loop, and each row that runs is a procedure of one vector. Its names stand in double quotes, so none may hold one,
/// which `has_plain_names` tells.
pub fn flat(alloc: Global, code: &Code) -> Result<FlatText, FlatFault>
    requires { has_plain_names code.now ≡ true }
    ensures found { IfOk result (IsFlat code.now) }
    ensures same { IfOk result (MeansSame code.now) }
    ensures limit { IsBeyondLimits code.now }
    ensures cause { IfErr result (IsCause code.now) }
    ensures long { IsTooLong code.now → MatchResult result (λ _. ⊥) (λ e. (e ≡ fault.NoMemory) ⊎ (e ≡ fault.TooLong)) }
    ensures flat { IsTooFlat code.now → MatchResult result (λ _. ⊥) (λ e. (e ≡ fault.NoMemory) ⊎ (e ≡ fault.TooFlat)) }
    ensures fine { IsFlat code.now (flat_text code.now) → IfErr result (λ e. e ≡ fault.NoMemory) }
{
    flattened(alloc, code)
}
