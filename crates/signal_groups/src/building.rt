//! The signals and groups that a text declares, or the first fault of their declarations.

ghost use Rattle.std.specs.Prelude.{◌≡◌, ◌⊎◌, None, Some, IfOk, IfErr, MatchResult};
ghost use Rattle.stil_ast.specs.Meaning.Signals.{names_of};
ghost use Rattle.stil_ast.specs.Faults.SignalFaults.{fourth_fault};
ghost use Rattle.stil_ast.specs.declared.fault.StilFault.{StilFault};
ghost use Rattle.answers.specs.Answers.{Finds};
ghost use Rattle.answers.specs.declared.short.Short.TheVariants as refusal;
ghost use Rattle.signal_groups.specs.Table.{table_of};
ghost use Rattle.signal_groups.specs.Fault.{IsFourth};

use crate::begin::begin;
use crate::complete::complete;
use crate::groups::groups_in;
use crate::table::SignalTable;
use std::alloc::Global;
use stil_ast::{Blocks, StilRefusal};

/// The signals and groups that the blocks of a text declare, or the first fault of their declarations.
pub fn build(alloc: Global, blocks: &Blocks) -> Result<SignalTable, StilRefusal>
    ensures found { IfOk result
        (λ table. (fourth_fault blocks.now ≡ None) × (table ≡ table_of (names_of blocks.now))) }
    ensures only { fourth_fault blocks.now ≡ None
        → MatchResult result (λ table. table ≡ table_of (names_of blocks.now)) (λ e. e ≡ refusal.NoMemory) }
    ensures fault { IfErr result (λ e. (e ≡ refusal.NoMemory) ⊎ IsFourth blocks.now e) }
    ensures refused { (fault : StilFault) → fourth_fault blocks.now ≡ Some fault
        → MatchResult result (λ _. ⊥) (λ e. (e ≡ refusal.NoMemory) ⊎ (e ≡ refusal.Fault fault)) }
{
    built(alloc, blocks)
}

/// The same, with what is answered as one fact.
fn built(alloc: Global, blocks: &Blocks) -> Result<SignalTable, StilRefusal>
    ensures { Finds (fourth_fault blocks.now) (λ table. table ≡ table_of (names_of blocks.now)) result }
{
    let groups = groups_in(alloc, blocks.groups.as_slice())?;
    match begin(alloc, blocks, groups.as_slice()) {
        Ok(table) => complete(alloc, table, groups.as_slice()),
        Err(refusal) => Err(refusal),
    }
}
