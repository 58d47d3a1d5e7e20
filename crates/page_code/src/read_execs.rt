//! Reading the executives of a saved program.

ghost use Rattle.std.specs.Prelude.{◌≡◌, ◌&&◌, [], nat_le, nat_lt, true};
ghost use Rattle.std.specs.Int.{w32};
ghost use Rattle.page_code.specs.Accepted.{AreAccepted};
ghost use Rattle.page_code.specs.Fields.{Gives, number_at, checked, items_at};
ghost use Rattle.page_code.specs.Reading.{name_at, chain_at, exec_at};

use crate::accepted::Accepted;
use crate::fault::ReadError;
use crate::read_fields::{bad, name, number16_below, number16_to, number32, number32_to, text};
use crate::read_instrs::instrs;
use cell_names::CellNames;
use packed_code::{CodeChain, CodeChainList, CodeExec, CodeExecList, RowList};
use std::alloc::Global;
use tester_types::Table;
use text_bytes::{MOST_CELLS, MOST_CHAINS};

/// So many names of cells.
fn cells(alloc: Global, count: u32, bytes: &[u8]) -> Result<(CellNames, &[u8]), ReadError>
    ensures { Gives (λ x. (x.0, x.1.now)) result (items_at (λ before. name_at) count [] bytes.now) }
{
    let mut cells = Vec::new(alloc);
    let mut rest = bytes;
    for _ in 0..count {
        let (cell, after) = name(alloc, rest)?;
        cells.push(cell)?;
        rest = after;
    }
    Ok((CellNames::new(alloc, cells)?, rest))
}

/// A chain.
#[tactic(auto, unfolding(crate::specs::Reading::chain_at))]
fn chain(alloc: Global, signals: usize, bytes: &[u8]) -> Result<(CodeChain, &[u8]), ReadError>
    ensures { Gives (λ x. (x.0, x.1.now)) result (chain_at signals bytes.now) }
{
    let (name, rest) = name(alloc, bytes)?;
    let (out, rest) = number16_below(signals, rest)?;
    let (length, rest) = number32_to(MOST_CELLS as u32, rest)?;
    let (count, rest) = number32_to(MOST_CELLS as u32, rest)?;
    let (cells, rest) = cells(alloc, count, rest)?;
    let chain = CodeChain {
        name,
        out,
        length,
        cells,
    };
    Ok((chain, rest))
}

/// So many chains.
fn chains(
    alloc: Global,
    signals: usize,
    count: u16,
    bytes: &[u8],
) -> Result<(CodeChainList, &[u8]), ReadError>
    ensures { Gives (λ x. (x.0, x.1.now)) result (items_at (λ before. chain_at signals) count [] bytes.now) }
{
    let mut chains = Vec::new(alloc);
    let mut rest = bytes;
    for _ in 0..count {
        let (chain, after) = chain(alloc, signals, rest)?;
        chains.push(chain)?;
        rest = after;
    }
    Ok((CodeChainList::from_vec(chains), rest))
}

/// The number of instructions of an executive, 1 to 2^22 + 1.
fn instr_count(bytes: &[u8]) -> Result<(u32, &[u8]), ReadError>
    ensures { Gives (λ x. (x.0, x.1.now)) result
        (checked (number_at w32) (λ n. nat_lt 0 n && nat_le n 4194305) bytes.now) }
{
    let (count, rest) = number32(bytes)?;
    if count == 0 || count > 4_194_305 {
        return Err(bad(bytes));
    }
    Ok((count, rest))
}

/// An executive.
#[tactic(auto, unfolding(crate::specs::Reading::exec_at))]
fn exec<'a>(
    alloc: Global,
    signals: usize,
    tables: &[Table],
    rows: &RowList,
    accepted: &mut Accepted,
    bytes: &'a [u8],
) -> Result<(CodeExec, &'a [u8]), ReadError>
    requires accepted { AreAccepted tables.now rows.now accepted.old }
    ensures accepted { AreAccepted tables.now rows.now accepted.new }
    ensures read { Gives (λ x. (x.0, x.1.now)) result (exec_at signals tables.now rows.now bytes.now) }
{
    let (name, rest) = text(alloc, bytes)?;
    let (count, rest) = number16_to(MOST_CHAINS as u16, rest)?;
    let (chains, rest) = chains(alloc, signals, count, rest)?;
    let (count, rest) = instr_count(rest)?;
    let (instrs, rest) = instrs(alloc, tables, rows, accepted, count, rest)?;
    Ok((CodeExec::new(name, chains, instrs), rest))
}

/// So many executives.
pub(crate) fn execs<'a>(
    alloc: Global,
    signals: usize,
    tables: &[Table],
    rows: &RowList,
    count: u16,
    bytes: &'a [u8],
) -> Result<(CodeExecList, &'a [u8]), ReadError>
    ensures { Gives (λ x. (x.0, x.1.now)) result
        (items_at (λ before. exec_at signals tables.now rows.now) count [] bytes.now) }
{
    let mut accepted = Accepted::new(alloc);
    let mut execs = Vec::new(alloc);
    let mut rest = bytes;
    for _ in 0..count {
        let (exec, after) = exec(alloc, signals, tables, rows, &mut accepted, rest)?;
        execs.push(exec)?;
        rest = after;
    }
    Ok((CodeExecList::from_vec(execs), rest))
}
