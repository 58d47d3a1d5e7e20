//! The first fault of chains (IEEE 1450-1999, clause 20).

ghost use Rattle.std.specs.Prelude.{◌≡◌, ℕ, List, [], Some, is_some, length, nat_le};
ghost use Rattle.std.specs.List.{list_all, list_any};
ghost use Rattle.answers.specs.Answers.{Blames, Passes};
ghost use Rattle.text_bytes.specs.Texts.{behind};
ghost use Rattle.text_bytes.specs.Limits.{longest_name};
ghost use Rattle.stil_ast.specs.Data.Texts.{same, indices, indexed, names_with};
ghost use Rattle.stil_ast.specs.Faults.Found.{fault_at, first_in};
ghost use Rattle.stil_ast.specs.Meaning.Signals.{Names};
ghost use Rattle.stil_ast.specs.Meaning.Members.{signal_of};
ghost use Rattle.stil_ast.specs.Meaning.Chains.{cells_of, scan_place, chain_stmt_fault, chain_fault, chains_fault};
ghost use Rattle.stil_ast.specs.declared.scan.ChainDecl.{ChainDecl};
ghost use Rattle.stil_ast.specs.declared.scan.ChainStmt.TheVariants as stmts;
ghost use Rattle.signal_groups.specs.Table.{table_of};
ghost use Rattle.scan_chain.specs.Working.{faults_behind};

use itoa::Buffer;
use signal_groups::{SignalTable, index_at, index_count};
use std::alloc::Global;
use stil_ast::{
    CellsDecl, ChainDecl, ChainStmt, IndexRange, NameRef, Named, StilKind, StilRefusal, told,
};
use text_bytes::LONGEST_NAME;

/// The refusal of a line in a ScanStructures block of this name.
fn refused(alloc: Global, block: &[u8], line: u32, kind: StilKind) -> StilRefusal
    ensures { Blames (Some (fault_at (scan_place block.now line) kind)) result }
{
    told(alloc, b"ScanStructures", block, line, kind)
}

/// Whether a name is the text of a signal.
fn is_signal(signals: &SignalTable, name: &[u8]) -> bool
    ensures { (names : Names) → signals.now ≡ table_of names → result ≡ is_some (signal_of names name.now) }
{
    signals.number(name).is_some()
}

/// Whether a name and an index make no text that is too long.
fn is_short_at(name: &[u8], index: u32) -> bool
    ensures { result ≡ nat_le (length (indexed name.now index)) longest_name }
{
    let mut buffer = Buffer::new();
    name.len() + buffer.format(index).len() + 2 <= LONGEST_NAME
}

/// Whether a name and indices make no text that is too long.
fn are_short(name: &[u8], range: IndexRange) -> bool
    ensures { result ≡ list_all (λ i. nat_le (length (indexed name.now i)) longest_name) (indices range) }
{
    for place in 0..index_count(range) {
        if !is_short_at(name, index_at(range, place)) {
            return false;
        }
    }
    true
}

/// Whether no cell of a name has too long a text.
fn is_name_short(cell: &NameRef) -> bool
    ensures { result ≡ list_all (λ (text : List ℕ). nat_le (length text) longest_name)
        (names_with cell.now.name cell.now.range) }
{
    match cell.range {
        None => cell.name.len() <= LONGEST_NAME,
        Some(range) => are_short(cell.name.as_slice(), range),
    }
}

/// Whether no cell of a statement has too long a text.
fn are_cells_short(cells: &CellsDecl) -> bool
    ensures { result ≡ list_all (λ (text : List ℕ). nat_le (length text) longest_name) (cells_of cells.now) }
{
    for cell in cells.cells.as_slice() {
        if !is_name_short(cell) {
            return false;
        }
    }
    true
}

/// Checks a ScanIn or a ScanOut.
fn check_name(
    alloc: Global,
    signals: &SignalTable,
    block: &[u8],
    named: &Named,
) -> Result<(), StilRefusal>
    ensures { (names : Names) → signals.now ≡ table_of names
        → Passes (chain_stmt_fault names block.now (stmts.Out named.now)) result }
{
    if is_signal(signals, named.name.as_slice()) {
        Ok(())
    } else {
        Err(refused(alloc, block, named.line, StilKind::UnknownName))
    }
}

/// Checks the cells of a chain.
fn check_cells(alloc: Global, block: &[u8], cells: &CellsDecl) -> Result<(), StilRefusal>
    ensures { (names : Names) → Passes (chain_stmt_fault names block.now (stmts.Cells cells.now)) result }
{
    if are_cells_short(cells) {
        Ok(())
    } else {
        Err(refused(alloc, block, cells.line, StilKind::OutOfRange))
    }
}

/// Checks a statement of a chain.
fn check_stmt(
    alloc: Global,
    signals: &SignalTable,
    block: &[u8],
    stmt: &ChainStmt,
) -> Result<(), StilRefusal>
    ensures { (names : Names) → signals.now ≡ table_of names
        → Passes (chain_stmt_fault names block.now stmt.now) result }
{
    match stmt {
        ChainStmt::Length(_) => Ok(()),
        ChainStmt::In(named) => check_name(alloc, signals, block, named),
        ChainStmt::Out(named) => check_name(alloc, signals, block, named),
        ChainStmt::Cells(cells) => check_cells(alloc, block, cells),
    }
}

/// Checks the statements of a chain.
fn check_stmts(
    alloc: Global,
    signals: &SignalTable,
    block: &[u8],
    stmts: &[ChainStmt],
) -> Result<(), StilRefusal>
    ensures { (names : Names) → signals.now ≡ table_of names
        → Passes (first_in (chain_stmt_fault names block.now) stmts.now) result }
{
    for stmt in stmts {
        check_stmt(alloc, signals, block, stmt)?;
    }
    Ok(())
}

/// Whether one of these chains has this name.
fn has_name(before: &[&ChainDecl], name: &[u8]) -> bool
    ensures { result ≡ list_any (λ (b : ChainDecl). same b.name name.now) (behind before.now) }
{
    for decl in before {
        if decl.name.as_slice() == name {
            return true;
        }
    }
    false
}

/// Checks a chain, behind others.
fn check_chain(
    alloc: Global,
    signals: &SignalTable,
    block: &[u8],
    before: &[&ChainDecl],
    decl: &ChainDecl,
) -> Result<(), StilRefusal>
    ensures { (names : Names) → signals.now ≡ table_of names
        → Passes (chain_fault names block.now (behind before.now) decl.now) result }
{
    if has_name(before, decl.name.as_slice()) {
        return Err(refused(alloc, block, decl.line, StilKind::Twice));
    }
    check_stmts(alloc, signals, block, decl.stmts.as_slice())
}

/// Checks chains in text order, each behind those before it.
fn check_behind(
    alloc: Global,
    signals: &SignalTable,
    block: &[u8],
    decls: &[&ChainDecl],
) -> Result<(), StilRefusal>
    ensures { (names : Names) → signals.now ≡ table_of names
        → Passes (faults_behind names block.now [] (behind decls.now)) result }
{
    for (place, decl) in decls.iter().enumerate() {
        check_chain(alloc, signals, block, &decls[..place], decl)?;
    }
    Ok(())
}

/// Checks the chains of an executive in text order.
pub(crate) fn check_chains(
    alloc: Global,
    signals: &SignalTable,
    block: &[u8],
    decls: &[&ChainDecl],
) -> Result<(), StilRefusal>
    ensures { (names : Names) → signals.now ≡ table_of names
        → Passes (chains_fault names block.now (behind decls.now)) result }
{
    check_behind(alloc, signals, block, decls)
}
