//! Which tables and rows Runs name, in the order of the first that names each.

ghost use Rattle.std.specs.Prelude.{◌≡◌, ◌++◌, ◌<◌, ℕ, List, IfOk, OnOk, length};
ghost use Rattle.std.specs.List.{flat_map};
ghost use Rattle.packed_code.specs.Cycles.{exec_of};
ghost use Rattle.flat_parts.specs.Order.{run_table, run_row, tables_in, firsts, table_order, row_order};

use crate::numbers::Numbers;
use packed_code::{Code, Instr, PackedInstr};
use std::alloc::Global;
use tester_types::NoMemory;

/// Adds the table of a Run.
fn add_table(tables: &mut Numbers, instr: Instr) -> Result<(), NoMemory>
    ensures { OnOk result ((before : List ℕ) → tables.old ≡ firsts before
        → tables.new ≡ firsts (before ++ run_table instr)) }
{
    match instr {
        Instr::Run { table, .. } => {
            tables.add(u32::from(table))?;
            Ok(())
        }
        Instr::Loop { .. } | Instr::End | Instr::Done => Ok(()),
    }
}

/// Adds the tables of instructions.
fn add_tables(tables: &mut Numbers, instrs: &[PackedInstr]) -> Result<(), NoMemory>
    ensures { OnOk result ((before : List ℕ) → tables.old ≡ firsts before
        → tables.new ≡ firsts (before ++ flat_map run_table instrs.now)) }
{
    for instr in instrs {
        add_table(tables, instr.instr())?;
    }
    Ok(())
}

/// Adds the row of a Run.
fn add_row(rows: &mut Numbers, instr: Instr) -> Result<(), NoMemory>
    ensures { OnOk result ((before : List ℕ) → rows.old ≡ firsts before
        → rows.new ≡ firsts (before ++ run_row instr)) }
{
    match instr {
        Instr::Run { row, .. } => {
            rows.add(row)?;
            Ok(())
        }
        Instr::Loop { .. } | Instr::End | Instr::Done => Ok(()),
    }
}

/// Adds the rows of instructions.
fn add_rows(rows: &mut Numbers, instrs: &[PackedInstr]) -> Result<(), NoMemory>
    ensures { OnOk result ((before : List ℕ) → rows.old ≡ firsts before
        → rows.new ≡ firsts (before ++ flat_map run_row instrs.now)) }
{
    for instr in instrs {
        add_row(rows, instr.instr())?;
    }
    Ok(())
}

/// The tables that the Runs of an executive name.
pub(crate) fn own_tables(alloc: Global, code: &Code, exec: u16) -> Result<Numbers, NoMemory>
    requires { exec < length code.now.execs }
    ensures { IfOk result (λ tables. tables ≡ firsts (tables_in (exec_of code.now exec))) }
{
    let mut tables = Numbers::new(alloc, usize::from(code.tables()))?;
    add_tables(&mut tables, code.instructions(exec))?;
    Ok(tables)
}

/// The tables that Runs name.
pub(crate) fn all_tables(alloc: Global, code: &Code) -> Result<Numbers, NoMemory>
    ensures { IfOk result (λ tables. tables ≡ table_order code.now) }
{
    let mut tables = Numbers::new(alloc, usize::from(code.tables()))?;
    for exec in 0..code.execs() {
        add_tables(&mut tables, code.instructions(exec))?;
    }
    Ok(tables)
}

/// The rows that Runs name.
pub(crate) fn all_rows(alloc: Global, code: &Code) -> Result<Numbers, NoMemory>
    ensures { IfOk result (λ rows. rows ≡ row_order code.now) }
{
    let mut rows = Numbers::new(alloc, code.rows() as usize)?;
    for exec in 0..code.execs() {
        add_rows(&mut rows, code.instructions(exec))?;
    }
    Ok(rows)
}
