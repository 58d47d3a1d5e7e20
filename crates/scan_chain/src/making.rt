//! Chains of their declarations (IEEE 1450-1999, clause 20).

ghost use Rattle.std.specs.Prelude.{◌≡◌, ◌++◌, ℕ, List, [], ◌∷◌, Some, map, IfOk, OnOk};
ghost use Rattle.std.specs.Option.{option_copied};
ghost use Rattle.text_bytes.specs.Texts.{behind};
ghost use Rattle.stil_ast.specs.Data.Texts.{indices, indexed, names_with};
ghost use Rattle.stil_ast.specs.Meaning.Signals.{Names};
ghost use Rattle.stil_ast.specs.Meaning.Chains.{Chain, cells_of, cells_in, length_in, out_in, scan_out_of, chain_with, chains_of};
ghost use Rattle.signal_groups.specs.Table.{table_of};
ghost use Rattle.scan_chain.specs.Held.{chain_in, chains_in, cells_if};
ghost use Rattle.scan_chain.specs.Working.{distinct_behind, chains_behind};

use crate::chain::ScanChain;
use crate::outs::is_end;
use cell_names::CellNames;
use signal_groups::{SignalTable, index_at, index_count, indexed};
use std::alloc::{AllocError, Global};
use stil_ast::{CellsDecl, ChainDecl, ChainStmt, IndexRange, NameRef};
use tester_types::{Items, Text};

/// Puts a cell for each index behind the others.
fn add_range(
    alloc: Global,
    texts: &mut Vec<Text>,
    name: &[u8],
    range: IndexRange,
) -> Result<(), AllocError>
    ensures { OnOk result (texts.new.items ≡ texts.old.items ++ map (indexed name.now) (indices range)) }
{
    for place in 0..index_count(range) {
        let text = indexed(alloc, name, index_at(range, place))?;
        texts.push(Items::from_vec(text))?;
    }
    Ok(())
}

/// Puts the cells of a name behind the others.
fn add_name(alloc: Global, texts: &mut Vec<Text>, cell: &NameRef) -> Result<(), AllocError>
    ensures { OnOk result (texts.new.items ≡ texts.old.items ++ names_with cell.now.name cell.now.range) }
{
    let name = cell.name.as_slice();
    match cell.range {
        None => {
            let text = Items::from_slice(alloc, name)?;
            texts.push(text)?;
            Ok(())
        }
        Some(range) => add_range(alloc, texts, name, range),
    }
}

/// The texts of the cells of a statement.
fn cells_of(alloc: Global, cells: &CellsDecl) -> Result<Vec<Text>, AllocError>
    ensures { IfOk result (λ texts. texts.items ≡ cells_of cells.now) }
{
    let mut texts = Vec::new(alloc);
    for cell in cells.cells.as_slice() {
        add_name(alloc, &mut texts, cell)?;
    }
    Ok(texts)
}

/// The ScanCells of a chain.
fn cells_decl(stmts: &[ChainStmt]) -> Option<&CellsDecl>
    ensures { cells_if result ≡ cells_in stmts.now }
{
    for stmt in stmts {
        if let ChainStmt::Cells(cells) = stmt {
            return Some(cells);
        }
    }
    None
}

/// The ScanLength of a chain.
fn length_in(stmts: &[ChainStmt]) -> Option<u32>
    ensures { result ≡ length_in stmts.now }
{
    for stmt in stmts {
        if let ChainStmt::Length(length) = stmt {
            return Some(*length);
        }
    }
    None
}

/// The name that a chain's ScanOut gives.
fn out_in(stmts: &[ChainStmt]) -> Option<&[u8]>
    ensures { option_copied result ≡ out_in stmts.now }
{
    for stmt in stmts {
        if let ChainStmt::Out(named) = stmt {
            return Some(named.name.as_slice());
        }
    }
    None
}

/// The texts of a chain's cells.
fn cells_in(alloc: Global, stmts: &[ChainStmt]) -> Result<CellNames, AllocError>
    ensures { IfOk result (λ cells. cells ≡ cells_in stmts.now) }
{
    match cells_decl(stmts) {
        Some(cells) => {
            let texts = cells_of(alloc, cells)?;
            CellNames::new(alloc, texts)
        }
        None => CellNames::new(alloc, Vec::new(alloc)),
    }
}

/// The signal at the end of a chain, where it has one.
fn scan_out_of(signals: &SignalTable, stmts: &[ChainStmt]) -> Option<u16>
    ensures { (names : Names) → signals.now ≡ table_of names → result ≡ scan_out_of names (out_in stmts.now) }
{
    match out_in(stmts) {
        Some(name) => signals.number(name),
        None => None,
    }
}

/// The chain of a declaration that ends at this signal.
fn chain_of(alloc: Global, decl: &ChainDecl, out: u16) -> Result<ScanChain, AllocError>
    ensures { IfOk result (λ chain. chain_in chain ∷ [] ≡ chain_with decl.now (Some out)) }
{
    let stmts = decl.stmts.as_slice();
    let name = Items::from_slice(alloc, decl.name.as_slice())?;
    let cells = cells_in(alloc, stmts)?;
    let length = match length_in(stmts) {
        Some(length) => length as usize,
        None => cells.len(),
    };
    Ok(ScanChain {
        name,
        scan_out: out,
        length,
        cells,
    })
}

/// Puts the chain of a declaration behind the others, unless one of them ends at its signal.
fn add_chain(
    alloc: Global,
    chains: &mut Vec<ScanChain>,
    decl: &ChainDecl,
    out: u16,
) -> Result<(), AllocError>
    ensures { OnOk result ((rest : List Chain) → distinct_behind (chains_in chains.new.items) rest
        ≡ distinct_behind (chains_in chains.old.items) (chain_with decl.now (Some out) ++ rest)) }
{
    if is_end(chains.as_slice(), out) {
        return Ok(());
    }
    let chain = chain_of(alloc, decl, out)?;
    chains.push(chain)?;
    Ok(())
}

/// Takes the chain of a declaration.
fn take_chain(
    alloc: Global,
    signals: &SignalTable,
    chains: &mut Vec<ScanChain>,
    decl: &ChainDecl,
) -> Result<(), AllocError>
    ensures { OnOk result ((names : Names) (rest : List Chain) → signals.now ≡ table_of names
        → distinct_behind (chains_in chains.new.items) rest
        ≡ distinct_behind (chains_in chains.old.items)
        (chain_with decl.now (scan_out_of names (out_in decl.now.stmts)) ++ rest)) }
{
    match scan_out_of(signals, decl.stmts.as_slice()) {
        Some(out) => add_chain(alloc, chains, decl, out),
        None => Ok(()),
    }
}

/// The chains of declarations, each behind those before it.
fn chains_behind(
    alloc: Global,
    signals: &SignalTable,
    decls: &[&ChainDecl],
) -> Result<Vec<ScanChain>, AllocError>
    ensures { IfOk result (λ chains. (names : Names) → signals.now ≡ table_of names
        → chains_in chains.items ≡ chains_behind names (behind decls.now)) }
{
    let mut chains = Vec::new(alloc);
    for decl in decls {
        take_chain(alloc, signals, &mut chains, decl)?;
    }
    Ok(chains)
}

/// The chains of declarations.
pub(crate) fn chains_of(
    alloc: Global,
    signals: &SignalTable,
    decls: &[&ChainDecl],
) -> Result<Vec<ScanChain>, AllocError>
    ensures { IfOk result (λ chains. (names : Names) → signals.now ≡ table_of names
        → chains_in chains.items ≡ chains_of names (behind decls.now)) }
{
    chains_behind(alloc, signals, decls)
}
