//! What is told of executives that can't be compiled.

ghost use Rattle.std.specs.Prelude.{◌≡◌, ◌<◌, IfOk, Some, length};
ghost use Rattle.stil_ast.specs.Faults.Found.{fault_at, IsRefusal};
ghost use Rattle.stil_ast.specs.Faults.BurstFaults.{exec_place};
ghost use Rattle.stil_ast.specs.Faults.CodeFaults.{trees_fault};
ghost use Rattle.stil_ast.specs.Meaning.State.{start_of};
ghost use Rattle.stil_ast.specs.declared.fault.StilFault.{StilFault};
ghost use Rattle.cycle_comp.specs.Written.{IsTold, IsFaulty};

use crate::fault::{VectorFault, WriteError};
use burst_exec::Exec;
use macro_expand::fault_of;
use std::alloc::{AllocError, Global};
use stil_ast::{StilFault, StilKind, StilRefusal};
use tester_types::Text;

/// A fault of this kind at an executive.
fn exec_fault(alloc: Global, exec: &Exec, kind: StilKind) -> Result<StilFault, AllocError>
    ensures { IfOk result (λ f. f ≡ fault_at (exec_place exec.now.name exec.now.line) kind) }
{
    Ok(StilFault {
        kind,
        block: Text::from_slice(alloc, b"PatternExec")?,
        name: Text::from_slice(alloc, exec.name())?,
        line: exec.line(),
    })
}

/// The refusal of an executive.
pub(crate) fn exec_refusal(alloc: Global, exec: &Exec, kind: StilKind) -> StilRefusal
    ensures { IsRefusal (Some (fault_at (exec_place exec.now.name exec.now.line) kind)) result }
{
    match exec_fault(alloc, exec, kind) {
        Ok(fault) => StilRefusal::Fault(fault),
        Err(_) => StilRefusal::NoMemory,
    }
}

/// The fault of a vector of an executive.
fn vector_fault(alloc: Global, exec: &Exec, fault: &VectorFault) -> Result<StilFault, AllocError>
    requires { fault.now.tree < length exec.now.trees }
    ensures { (f : StilFault) → IsTold exec.now.trees fault.now f → IfOk result (λ told. told ≡ f) }
{
    let titles = exec.titles(fault.tree);
    fault_of(
        alloc,
        &titles,
        fault.kind,
        fault.place.body,
        fault.place.line,
    )
}

/// The refusal of an executive whose vectors were written up to a fault.
pub(crate) fn write_refusal(
    alloc: Global,
    signals: u16,
    exec: &Exec,
    error: WriteError,
) -> StilRefusal
    requires { IsFaulty exec.now.tables signals exec.now.trees error }
    ensures { IsRefusal (trees_fault exec.now.tables exec.now.trees (start_of signals)) result }
{
    match error {
        WriteError::NoMemory => StilRefusal::NoMemory,
        WriteError::Fault(fault) => match vector_fault(alloc, exec, &fault) {
            Ok(fault) => StilRefusal::Fault(fault),
            Err(_) => StilRefusal::NoMemory,
        },
    }
}
