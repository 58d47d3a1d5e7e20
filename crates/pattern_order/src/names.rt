//! The names that an executive gives (IEEE 1450-1999, clause 17).

ghost use Rattle.std.specs.Prelude.{◌≡◌, None, Some};
ghost use Rattle.answers.specs.Answers.{Blames, Passes};
ghost use Rattle.stil_ast.specs.Faults.Found.{fault_at, unless, first_in};
ghost use Rattle.stil_ast.specs.Faults.BurstFaults.{exec_place, is_category, is_selector, is_timing, named_fault, maybe_fault};
ghost use Rattle.stil_ast.specs.declared.fault.StilKind.TheVariants.{UnknownName};
ghost use Rattle.pattern_order.specs.Answer.{own_fault};

use crate::bursts::BurstNames;
use crate::found::{is_selector, is_timing};
use std::alloc::Global;
use stil_ast::{Blocks, ExecDecl, Named, StilKind, StilRefusal, told};

/// The refusal of a line in an executive.
pub(crate) fn refused(alloc: Global, exec: &ExecDecl, line: u32, kind: StilKind) -> StilRefusal
    ensures { Blames (Some (fault_at (exec_place exec.now.name line) kind)) result }
{
    told(alloc, b"PatternExec", exec.name.as_slice(), line, kind)
}

/// Checks that a name is known.
fn check_name(
    alloc: Global,
    exec: &ExecDecl,
    named: &Named,
    is_known: bool,
) -> Result<(), StilRefusal>
    ensures { Passes (unless is_known (fault_at (exec_place exec.now.name named.now.line) UnknownName) None) result }
{
    if is_known {
        Ok(())
    } else {
        Err(refused(alloc, exec, named.line, StilKind::UnknownName))
    }
}

/// Checks the names of categories.
fn check_categories(alloc: Global, names: &BurstNames, exec: &ExecDecl) -> Result<(), StilRefusal>
    ensures { Passes (first_in (named_fault exec.now (is_category names.now)) exec.now.categories) result }
{
    for named in exec.categories.as_slice() {
        check_name(alloc, exec, named, names.is_category(named.name.as_slice()))?;
    }
    Ok(())
}

/// Checks the name of a Selector.
fn check_selector(alloc: Global, blocks: &Blocks, exec: &ExecDecl) -> Result<(), StilRefusal>
    ensures { Passes (maybe_fault exec.now (is_selector blocks.now) exec.now.selector) result }
{
    match &exec.selector {
        Some(named) => check_name(
            alloc,
            exec,
            named,
            is_selector(blocks, named.name.as_slice()),
        ),
        None => Ok(()),
    }
}

/// Checks the name of a Timing.
fn check_timing(alloc: Global, blocks: &Blocks, exec: &ExecDecl) -> Result<(), StilRefusal>
    ensures { Passes (maybe_fault exec.now (is_timing blocks.now) exec.now.timing) result }
{
    match &exec.timing {
        Some(named) => check_name(alloc, exec, named, is_timing(blocks, named.name.as_slice())),
        None => Ok(()),
    }
}

/// Checks the names that an executive gives but for its burst.
pub(crate) fn check_own(
    alloc: Global,
    names: &BurstNames,
    exec: &ExecDecl,
) -> Result<(), StilRefusal>
    ensures { Passes (own_fault names.now exec.now) result }
{
    check_categories(alloc, names, exec)?;
    let blocks = names.blocks();
    check_selector(alloc, blocks, exec)?;
    check_timing(alloc, blocks, exec)
}
