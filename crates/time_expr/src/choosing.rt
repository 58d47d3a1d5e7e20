//! The values of the variables of an executive (IEEE 1450-1999, clauses 16 and 19).

ghost use Rattle.std.specs.Prelude.{◌≡◌, ◌⊎◌, ◌<◌, length, slice_get, Some, None, IfOk, IfErr, MatchResult};
ghost use Rattle.stil_ast.specs.Meaning.Executive.{exec_value};
ghost use Rattle.stil_ast.specs.Meaning.Variables.{picked, variables_fault};
ghost use Rattle.stil_ast.specs.declared.executive.ExecDecl.{ExecDecl};
ghost use Rattle.stil_ast.specs.declared.fault.StilFault.{StilFault};
ghost use Rattle.answers.specs.declared.short.Short.TheVariants as refusal;
ghost use Rattle.time_expr.specs.TimesOf.{times_of};
ghost use Rattle.time_expr.specs.TimeIn.{AreNames};
ghost use Rattle.expr_text.specs.Vars.{value_of_name};
ghost use Rattle.time_expr.specs.Picked.{place_of, variables_of};
ghost use Rattle.time_expr.specs.Choosing.{AreKnown, IsWalked, Settles, AreValues, Chooses};

use crate::order::ordered_values;
use crate::picked::{Picked, Spot, picked_of};
use crate::stop::{Variables, refused, spot_of};
use crate::texts::TimeTexts;
use crate::walk::walk;
use expr_text::{Fraction, Vars};
use std::alloc::Global;
use stil_ast::{Blocks, ExecDecl, StilKind, StilRefusal};

/// The next variable that gets a value so that the variable of a name, which is met at a spot, may have one.
fn next_value<'a>(
    alloc: Global,
    variables: &Variables<'a>,
    vars: &Vars,
    name: &[u8],
    spot: Spot<'a>,
) -> Result<(&'a Picked<'a>, Fraction), StilRefusal>
    requires known { AreKnown variables.now vars.now }
    requires open { value_of_name name.now vars.now ≡ None }
    ensures { IsWalked variables.now vars.now (place_of spot.entry) name.now result }
{
    match variables.get(name) {
        Some(variable) => walk(alloc, variables, vars, variable, spot),
        None => Err(refused(alloc, spot, StilKind::UnknownName)),
    }
}

/// Finds the value of a name, which is met at a spot, and those that it needs.
fn settle<'a>(
    alloc: Global,
    variables: &Variables<'a>,
    vars: &mut Vars,
    name: &[u8],
    spot: Spot<'a>,
) -> Result<(), StilRefusal>
    requires { AreKnown variables.now vars.old }
    ensures { Settles variables.now vars.old vars.new (place_of spot.entry) name.now result }
{
    while vars.get(name).is_none() {
        let (variable, value) = next_value(alloc, variables, vars, name, spot)?;
        vars.add(alloc, variable.name, value)?;
    }
    Ok(())
}

/// The values of all variables.
fn values_of(alloc: Global, variables: &Variables) -> Result<Vars, StilRefusal>
    ensures { AreValues variables.now result }
{
    let mut vars = ordered_values(alloc, variables)?;
    for variable in variables.picked() {
        settle(
            alloc,
            variables,
            &mut vars,
            variable.name,
            spot_of(variable),
        )?;
    }
    Ok(vars)
}

/// The values of these variables.
fn chosen(alloc: Global, texts: &TimeTexts, picked: &[Picked]) -> Result<Vars, StilRefusal>
    ensures { Chooses (variables_of picked.now) result }
{
    let variables = Variables::new(alloc, texts, picked)?;
    values_of(alloc, &variables)
}

/// The values of the variables of an executive.
fn chosen_for(
    alloc: Global,
    texts: &TimeTexts,
    blocks: &Blocks,
    exec: &ExecDecl,
) -> Result<Vars, StilRefusal>
    ensures { Chooses (picked blocks.now exec.now) result }
{
    let picked = picked_of(alloc, blocks, exec)?;
    chosen(alloc, texts, &picked)
}

/// The values of the variables that the executive with this index picks: those of the categories that it names, each
/// with the value that its Selector takes, or Typ where nothing is taken.
///
/// The variable behind 1,024 others is OutOfRange, and the second of a name is Twice. Then all variables are evaluated
/// in text order, and the first fault that is met is the fault, at the text in which it is met: BadExpr, OutOfRange,
/// ZeroDivisor, UnknownName for a name that is no variable or has no chosen value, and Cyclic for a name that is met
/// again while it is evaluated. A variable without a chosen value that is met first for itself has its own statement's
/// line.
pub fn choose(
    alloc: Global,
    texts: &TimeTexts,
    blocks: &Blocks,
    exec: usize,
) -> Result<Vars, StilRefusal>
    requires executive { exec < length blocks.now.executives }
    ensures found { (e : ExecDecl) → slice_get blocks.now.executives exec ≡ Some e
        → IfOk result (λ vars. (variables_fault times_of (picked blocks.now e) ≡ None)
        × AreNames (exec_value times_of blocks.now e) vars) }
    ensures only { (e : ExecDecl) → slice_get blocks.now.executives exec ≡ Some e
        → variables_fault times_of (picked blocks.now e) ≡ None
        → MatchResult result (λ vars. AreNames (exec_value times_of blocks.now e) vars) (λ r. r ≡ refusal.NoMemory) }
    ensures fault { (e : ExecDecl) → slice_get blocks.now.executives exec ≡ Some e
        → IfErr result (λ r. (r ≡ refusal.NoMemory)
        ⊎ ((f : StilFault) × (r ≡ refusal.Fault f) × (variables_fault times_of (picked blocks.now e) ≡ Some f))) }
    ensures refused { (e : ExecDecl) (f : StilFault) → slice_get blocks.now.executives exec ≡ Some e
        → variables_fault times_of (picked blocks.now e) ≡ Some f
        → MatchResult result (λ _. ⊥) (λ r. (r ≡ refusal.NoMemory) ⊎ (r ≡ refusal.Fault f)) }
{
    chosen_at(alloc, texts, blocks, exec)
}

/// The same in one clause.
fn chosen_at(
    alloc: Global,
    texts: &TimeTexts,
    blocks: &Blocks,
    exec: usize,
) -> Result<Vars, StilRefusal>
    requires { exec < length blocks.now.executives }
    ensures { (e : ExecDecl) → slice_get blocks.now.executives exec ≡ Some e → Chooses (picked blocks.now e) result }
{
    chosen_for(alloc, texts, blocks, &blocks.executives.as_slice()[exec])
}
