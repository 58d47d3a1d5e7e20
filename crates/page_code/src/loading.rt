//! Loading a saved program.

ghost use Rattle.std.specs.Prelude.{◌≡◌, ◌*◌, ◌^◌, ◌&&◌, ◌==◌, ◌⊎◌, ◌∷◌, [], nat_le, nat_lt, length, IfOk, IfErr, MatchResult, List, ℕ, Ok, Err};
ghost use Rattle.std.specs.Int.{w16, w32};
ghost use Rattle.text_bytes.specs.Limits.{most_row_characters, most_executives};
ghost use Rattle.page_code.specs.declared.fault.SavedFault.{SavedFault};
ghost use Rattle.page_code.specs.declared.fault.SavedFault.TheVariants as saved;
ghost use Rattle.packed_code.specs.Program.{Program};
ghost use Rattle.page_code.specs.Saved.{Saved};
ghost use Rattle.page_code.specs.Fields.{Gives, number_at, checked};
ghost use Rattle.page_code.specs.Reading.{magic_at, version_of, known_version, head_at, program_at, whole_at, load_of, refusal_of};

use crate::fault::{ReadError, Refusal, SavedFault};
use crate::read_execs::execs;
use crate::read_fields::{bad, number16, number16_to, number32};
use crate::read_rows::rows;
use crate::read_tables::{signals, tables};
use crate::version::Version;
use packed_code::{Code, CodeExecList, CodeSignalList, RowList};
use std::alloc::Global;
use tester_types::TableList;
use text_bytes::{MOST_CODE_TABLES, MOST_EXECUTIVES, MOST_ROW_CHARACTERS, MOST_SIGNALS};

/// The four bytes with which a saved program begins.
fn magic(bytes: &[u8]) -> Result<&[u8], ReadError>
    ensures { Gives (λ x. (tt, x.now)) result (magic_at (0xD7 ∷ 0x53 ∷ 0x54 ∷ 0x50 ∷ []) bytes.now) }
{
    match bytes {
        [0xD7, 0x53, 0x54, 0x50, rest @ ..] => Ok(rest),
        [] | [0xD7] | [0xD7, 0x53] | [0xD7, 0x53, 0x54] => { Err(ReadError::Fault(Refusal::Torn)) }
        _ => Err(ReadError::Fault(Refusal::BadMagic)),
    }
}

/// The version of a number.
fn version(number: u16) -> Option<Version>
    ensures { result ≡ version_of number }
{
    match number {
        1 => Some(Version::One),
        2 => Some(Version::Two),
        _ => None,
    }
}

/// The head: the known bytes, a version and a zero.
#[tactic(auto, unfolding(crate::specs::Reading::head_at))]
fn head(bytes: &[u8]) -> Result<(Version, &[u8]), ReadError>
    ensures { Gives (λ x. (x.0, x.1.now)) result (head_at bytes.now) }
{
    let rest = magic(bytes)?;
    let (number, rest) = number16(rest)?;
    let Some(version) = version(number) else {
        return Err(ReadError::Fault(Refusal::BadVersion));
    };
    let (zeros, after) = number16(rest)?;
    if zeros != 0 {
        return Err(bad(rest));
    }
    Ok((version, after))
}

/// The number of rows of so many characters.
fn row_count(signals: usize, bytes: &[u8]) -> Result<(u32, &[u8]), ReadError>
    ensures { Gives (λ x. (x.0, x.1.now)) result
        (checked (number_at w32) (λ count. nat_le (count * signals) most_row_characters) bytes.now) }
{
    let (count, rest) = number32(bytes)?;
    if (count as usize).saturating_mul(signals) > MOST_ROW_CHARACTERS as usize {
        return Err(bad(bytes));
    }
    Ok((count, rest))
}

/// The number of executives, 1 to 64.
fn exec_count(bytes: &[u8]) -> Result<(u16, &[u8]), ReadError>
    ensures { Gives (λ x. (x.0, x.1.now)) result
        (checked (number_at w16) (λ count. nat_lt 0 count && nat_le count most_executives) bytes.now) }
{
    let (count, rest) = number16(bytes)?;
    if count == 0 || usize::from(count) > MOST_EXECUTIVES {
        return Err(bad(bytes));
    }
    Ok((count, rest))
}

/// The parts of a code, and the bytes behind them.
#[derive(Drop)]
struct Parts<'a> {
    signals: CodeSignalList,
    tables: TableList,
    rows: RowList,
    execs: CodeExecList,
    rest: &'a [u8],
}

/// The parts of a code behind the head of a version, and the bytes behind them.
#[tactic(auto, unfolding(crate::specs::Reading::program_at))]
fn read_parts(alloc: Global, version: Version, bytes: &[u8]) -> Result<Parts<'_>, ReadError>
    ensures { Gives
        (λ x. (record { signals = x.signals; tables = x.tables; rows = x.rows; execs = x.execs }, x.rest.now))
        result (program_at version bytes.now) }
{
    let (count, rest) = number16_to(MOST_SIGNALS as u16, bytes)?;
    let (signals, rest) = signals(alloc, count, rest)?;
    let width = signals.len();
    let (count, rest) = number16_to(MOST_CODE_TABLES as u16, rest)?;
    let (tables, rest) = tables(alloc, width, count, rest)?;
    let (count, rest) = row_count(width, rest)?;
    let (rows, rest) = rows(alloc, version, width, count, rest)?;
    let (count, rest) = exec_count(rest)?;
    let (execs, rest) = execs(alloc, width, tables.as_slice(), &rows, count, rest)?;
    Ok(Parts {
        signals,
        tables,
        rows,
        execs,
        rest,
    })
}

/// The code that all of the bytes spell.
#[tactic(auto, unfolding(crate::specs::Reading::whole_at))]
fn whole(alloc: Global, bytes: &[u8]) -> Result<Code, ReadError>
    ensures { Gives (λ code. code) result (whole_at bytes.now) }
{
    let (version, behind) = head(bytes)?;
    let Parts {
        signals,
        tables,
        rows,
        execs,
        rest,
    } = read_parts(alloc, version, behind)?;
    if !rest.is_empty() {
        return Err(bad(rest));
    }
    Ok(Code::new(signals, tables, rows, execs))
}

/// The refusal of bytes of this length.
fn fault_of(refusal: Refusal, length: usize) -> SavedFault
    ensures { result ≡ refusal_of length refusal }
{
    match refusal {
        Refusal::BadMagic => SavedFault::BadMagic,
        Refusal::BadVersion => SavedFault::BadVersion,
        Refusal::Torn => SavedFault::Torn(length as u64),
        Refusal::BadCode(left) => SavedFault::BadCode(length.saturating_sub(left) as u64),
    }
}

/// The code that the bytes spell, or the first refusal.
fn loaded(alloc: Global, bytes: &[u8]) -> Result<Code, SavedFault>
    ensures { MatchResult result (λ code. load_of bytes.now ≡ Ok code)
        (λ e. (e ≡ saved.NoMemory) ⊎ (load_of bytes.now ≡ Err e)) }
{
    match whole(alloc, bytes) {
        Ok(code) => Ok(code),
        Err(ReadError::NoMemory) => Err(SavedFault::NoMemory),
        Err(ReadError::Fault(refusal)) => Err(fault_of(refusal, bytes.len())),
    }
}

/// Reads a saved program, of version 1 or 2, from left to right. It answers the code where the bytes are its
/// saved form, and else the first refusal that it meets, with its place.
pub fn load(alloc: Global, bytes: &[u8]) -> Result<Code, SavedFault>
    ensures found { IfOk result (λ code. Saved code bytes.now) }
    ensures only { (code : Program) → Saved code bytes.now
        → MatchResult result (λ c. c ≡ code) (λ e. e ≡ saved.NoMemory) }
    ensures fault { IfErr result (λ e. (e ≡ saved.NoMemory) ⊎ (load_of bytes.now ≡ Err e)) }
    ensures refused { (f : SavedFault) → load_of bytes.now ≡ Err f
        → MatchResult result (λ _. ⊥) (λ e. (e ≡ saved.NoMemory) ⊎ (e ≡ f)) }
{
    loaded(alloc, bytes)
}
