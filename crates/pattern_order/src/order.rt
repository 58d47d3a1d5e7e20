//! Which patterns an executive runs (IEEE 1450-1999, clauses 16 and 17).

ghost use Rattle.std.specs.Prelude.{◌≡◌, ◌⊎◌, ◌<◌, Some, None, length, slice_get, IfOk, IfErr, MatchResult};
ghost use Rattle.stil_ast.specs.Meaning.Bursts.{played_of, played};
ghost use Rattle.stil_ast.specs.Faults.BurstFaults.{exec_names_fault};
ghost use Rattle.stil_ast.specs.declared.executive.Burst.{Burst};
ghost use Rattle.stil_ast.specs.declared.executive.ExecDecl.{ExecDecl};
ghost use Rattle.stil_ast.specs.declared.fault.StilFault.{StilFault};
ghost use Rattle.answers.specs.Answers.{Finds};
ghost use Rattle.answers.specs.declared.short.Short.TheVariants as refusal;
ghost use Rattle.pattern_order.specs.Numbers.{IsFirst};
ghost use Rattle.pattern_order.specs.Answer.{inner_fault, IsNamesFault};

use crate::bursts::BurstNames;
use crate::checking::{check_all_forward, check_all_known};
use crate::names::{check_own, refused};
use crate::playing::{PlayOrder, all_played};
use std::alloc::Global;
use stil_ast::{ExecDecl, StilKind, StilRefusal};

/// The patterns that the executive with this index runs, in running order. A name in a PatList is looked up first as a
/// pattern, then as a burst, whose patterns run in place. MacroDefs and Procedures are those of the innermost burst
/// that names one.
///
/// The first fault of its names refuses: UnknownName for Categories, Selector, Timing and the burst, in this order;
/// then UnknownName for a name in a burst that names nothing; then Cyclic for an entry inside the burst that it names;
/// then TooLarge, at the PatternExec, where more than 4,096 patterns run.
pub fn play_order<'a>(
    alloc: Global,
    names: &BurstNames<'a>,
    exec: usize,
) -> Result<PlayOrder<'a>, StilRefusal>
    requires executive { exec < length names.now.executives }
    ensures found { (e : ExecDecl) → slice_get names.now.executives exec ≡ Some e
        → IfOk result (λ order. (exec_names_fault names.now e ≡ None) × (order ≡ played names.now e)) }
    ensures only { (e : ExecDecl) → slice_get names.now.executives exec ≡ Some e
        → exec_names_fault names.now e ≡ None
        → MatchResult result (λ order. order ≡ played names.now e) (λ r. r ≡ refusal.NoMemory) }
    ensures fault { (e : ExecDecl) → slice_get names.now.executives exec ≡ Some e
        → IfErr result (λ r. (r ≡ refusal.NoMemory) ⊎ IsNamesFault names.now e r) }
    ensures refused { (e : ExecDecl) (f : StilFault) → slice_get names.now.executives exec ≡ Some e
        → exec_names_fault names.now e ≡ Some f
        → MatchResult result (λ _. ⊥) (λ r. (r ≡ refusal.NoMemory) ⊎ (r ≡ refusal.Fault f)) }
{
    order_at(alloc, names, exec)
}

/// The same in one clause.
fn order_at<'a>(
    alloc: Global,
    names: &BurstNames<'a>,
    exec: usize,
) -> Result<PlayOrder<'a>, StilRefusal>
    requires { exec < length names.now.executives }
    ensures { (e : ExecDecl) → slice_get names.now.executives exec ≡ Some e
        → Finds (exec_names_fault names.now e) (λ order. order ≡ played names.now e) result }
{
    ordered(alloc, names, &names.blocks().executives.as_slice()[exec])
}

/// The patterns of an executive.
fn ordered<'a>(
    alloc: Global,
    names: &BurstNames<'a>,
    exec: &ExecDecl,
) -> Result<PlayOrder<'a>, StilRefusal>
    ensures { Finds (exec_names_fault names.now exec.now) (λ order. order ≡ played names.now exec.now) result }
{
    if let Err(refusal) = check_own(alloc, names, exec) {
        return Err(refusal);
    }
    match names.number(exec.burst.name.as_slice()) {
        Some(number) => burst_order(alloc, names, exec, number),
        None => Err(refused(alloc, exec, exec.burst.line, StilKind::UnknownName)),
    }
}

/// The patterns of the burst of an executive.
fn burst_order<'a>(
    alloc: Global,
    names: &BurstNames<'a>,
    exec: &ExecDecl,
    number: usize,
) -> Result<PlayOrder<'a>, StilRefusal>
    requires { IsFirst names.now number }
    ensures { (b : Burst) → slice_get names.now.bursts number ≡ Some b
        → Finds (inner_fault names.now exec.now (Some b)) (λ order. order ≡ played_of names.now (Some b)) result }
{
    check_all_known(alloc, names, number)?;
    check_all_forward(alloc, names, number)?;
    match all_played(alloc, names, number)? {
        Some(patterns) => Ok(PlayOrder { patterns }),
        None => Err(refused(alloc, exec, exec.line, StilKind::TooLarge)),
    }
}
