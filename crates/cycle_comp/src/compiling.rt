//! The code of executives.

ghost use Rattle.std.specs.Prelude.{◌≡◌, ◌<◌, ◌≤◌, ◌^◌, ◌++◌, ◌∷◌, [], All, IfErr, IfOk, List, MatchResult, None, OnOk, Some, length};
ghost use Rattle.stil_ast.specs.Faults.Found.{IsRefusal};
ghost use Rattle.stil_ast.specs.Meaning.ExecutiveData.{Executive, tables_of};
ghost use Rattle.stil_ast.specs.Meaning.Signals.{Names};
ghost use Rattle.stil_ast.specs.Faults.CodeFaults.{compile_fault, compile_faults, trees_fault};
ghost use Rattle.stil_ast.specs.Meaning.State.{start_of};
ghost use Rattle.stil_ast.specs.declared.fault.StilFault.{StilFault};
ghost use Rattle.answers.specs.declared.short.Short.TheVariants as refusal;
ghost use Rattle.signal_groups.specs.Table.{table_of};
ghost use Rattle.text_bytes.specs.Limits.{most_measure};
ghost use Rattle.packed_code.specs.Whole.{IsWhole};
ghost use Rattle.cycle_comp.specs.Written.{IsWritten};
ghost use Rattle.answers.specs.Answers.{Finds};
ghost use Rattle.cycle_comp.specs.Compiled.{IsCodeOf, code_fault};
ghost use Rattle.cycle_comp.specs.OfText.{AreOfText};
ghost use Rattle.cycle_comp.specs.Working.{HasPut, IsBuilt, IsFit, rows_fault};

use crate::building::Building;
use crate::chains::code_chains;
use crate::inside::check_instrs;
use crate::refusing::{exec_refusal, write_refusal};
use crate::signals::signal_list;
use crate::sizes::checked_measure;
use crate::trees::write;
use burst_exec::{Exec, ExecList, ExecParts};
use packed_code::{Code, CodeExec, CodeExecList, InstrList, RowList, pack};
use signal_groups::SignalTable;
use std::alloc::{AllocError, Global};
use stil_ast::{StilKind, StilRefusal};
use tester_types::TableList;
use text_bytes::MOST_ROW_CHARACTERS;

/// The instructions of an executive whose first table has this number in the code.
fn exec_instrs(
    alloc: Global,
    first: u16,
    signals: u16,
    exec: &Exec,
    rows: &mut RowList,
) -> Result<InstrList, StilRefusal>
    ensures { Finds (trees_fault exec.now.tables exec.now.trees (start_of signals))
        (λ code. IsWritten first signals exec.now.trees code rows.old rows.new) result }
{
    match write(alloc, exec.tables(), first, signals, exec.flats(), rows) {
        Ok(instrs) => Ok(instrs),
        Err(error) => Err(write_refusal(alloc, signals, exec, error)),
    }
}

/// Refuses rows with too many characters.
fn check_rows(alloc: Global, signals: u16, exec: &Exec, rows: &RowList) -> Result<(), StilRefusal>
    ensures { Finds (rows_fault signals rows.now exec.now) (λ _. length rows.now < 2 ^ 32) result }
{
    if u32::try_from(rows.len()).is_err() {
        return Err(StilRefusal::NoMemory);
    }
    let characters = (rows.len() as u64).saturating_mul(u64::from(signals));
    if characters > MOST_ROW_CHARACTERS {
        return Err(exec_refusal(alloc, exec, StilKind::TooLarge));
    }
    Ok(())
}

/// Puts what was made of an executive behind those before it; its name, tables and chains move there. Its instructions
/// are looked at once more, and packed.
fn put_exec(
    alloc: Global,
    exec: Exec,
    instrs: InstrList,
    building: &mut Building,
) -> Result<(), AllocError>
    requires whole { IsWhole instrs }
    requires fit { IsFit exec }
    ensures { OnOk result (HasPut exec.entry instrs building.old building.new) }
{
    check_instrs(
        instrs.as_slice(),
        building.tables.len(),
        exec.tables().len(),
    )?;
    let ExecParts {
        name,
        tables,
        chains,
    } = exec.into_parts();
    let chains = code_chains(alloc, chains)?;
    let packed = pack(alloc, instrs.as_slice())?;
    building.execs.push(CodeExec::new(name, chains, packed))?;
    let mut tables = tables.into_vec();
    building.tables.append(&mut tables)?;
    Ok(())
}

/// Compiles an executive behind those before it.
fn add_exec(
    alloc: Global,
    signals: u16,
    exec: Exec,
    building: &mut Building,
) -> Result<(), StilRefusal>
    requires few { length building.old.tables.items < 2 ^ 16 }
    requires fit { IsFit exec }
    requires measure { building.old.measure ≤ most_measure }
    ensures { (before : List Executive) → IsBuilt signals before building.old
        → Finds (compile_fault signals before exec.entry)
        (λ _. IsBuilt signals (before ++ exec.entry ∷ []) building.new) result }
{
    let measure = match checked_measure(alloc, signals, &exec, building.measure) {
        Ok(measure) => measure,
        Err(refusal) => return Err(refusal),
    };
    let first = building.tables.len() as u16;
    let instrs = match exec_instrs(alloc, first, signals, &exec, &mut building.rows) {
        Ok(instrs) => instrs,
        Err(refusal) => return Err(refusal),
    };
    match check_rows(alloc, signals, &exec, &building.rows) {
        Ok(()) => {}
        Err(refusal) => return Err(refusal),
    }
    building.measure = measure;
    put_exec(alloc, exec, instrs, building)?;
    Ok(())
}

/// Compiles executives one after another.
fn build_each(
    alloc: Global,
    signals: u16,
    execs: Vec<Exec>,
    building: &mut Building,
) -> Result<(), StilRefusal>
    requires few { length (tables_of execs.items) < 2 ^ 16 }
    requires fit { All IsFit execs.items }
    requires empty { IsBuilt signals [] building.old }
    ensures { Finds (compile_faults signals [] execs.entry.items)
        (λ _. IsBuilt signals execs.entry.items building.new) result }
{
    for exec in execs {
        match add_exec(alloc, signals, exec, building) {
            Ok(()) => {}
            Err(refusal) => return Err(refusal),
        }
    }
    Ok(())
}

/// All executives.
fn build_all(alloc: Global, signals: u16, execs: Vec<Exec>) -> Result<Building, StilRefusal>
    requires few { length (tables_of execs.items) < 2 ^ 16 }
    requires fit { All IsFit execs.items }
    ensures { Finds (compile_faults signals [] execs.entry.items) (IsBuilt signals execs.entry.items) result }
{
    let mut building = Building {
        tables: Vec::new(alloc),
        rows: RowList::new(alloc),
        execs: Vec::new(alloc),
        measure: 0,
    };
    match build_each(alloc, signals, execs, &mut building) {
        Ok(()) => Ok(building),
        Err(refusal) => Err(refusal),
    }
}

/// The code of the executives of a text over its signals: the signals and the chains of the text, the tables of the
/// executives one after another, the distinct rows of their vectors, and for each executive instructions that keep its
/// loops.
///
/// The first fault refuses, executive by executive: TooLarge where their measure goes above 2^22 with this one,
/// TooManyCycles above 2^48 cycles, NoTable or NoWave at the first faulty vector in time, and TooLarge where the rows so
/// far have more than 2^28 characters.
pub fn compile(alloc: Global, signals: &SignalTable, execs: ExecList) -> Result<Code, StilRefusal>
    requires { AreOfText signals.now execs }
    ensures found { (names : Names) → signals.now ≡ table_of names
        → IfOk result (λ code. (code_fault names execs.entry ≡ None) × IsCodeOf names execs.entry code) }
    ensures only { (names : Names) → signals.now ≡ table_of names → code_fault names execs.entry ≡ None
        → IfErr result (λ r. r ≡ refusal.NoMemory) }
    ensures fault { (names : Names) → signals.now ≡ table_of names
        → IfErr result (IsRefusal (code_fault names execs.entry)) }
    ensures refused { (names : Names) (f : StilFault) → signals.now ≡ table_of names
        → code_fault names execs.entry ≡ Some f
        → MatchResult result (λ _. ⊥) (IsRefusal (Some f)) }
{
    let count = signals.count() as u16;
    let Building {
        tables,
        rows,
        execs,
        measure: _,
    } = build_all(alloc, count, execs.into_vec())?;
    let signals = signal_list(alloc, signals)?;
    let tables = TableList::from_vec(tables);
    Ok(Code::new(signals, tables, rows, CodeExecList::from_vec(execs)))
}
