//! The signals that take in a Shift.

ghost use Rattle.std.specs.Prelude.{◌≡◌, ◌++◌, ◌∷◌, [], ℕ, IfOk, OnOk};
ghost use Rattle.stil_ast.specs.Data.Assignments.{assignment_said};
ghost use Rattle.stil_ast.specs.Data.Bodies.{written_front};
ghost use Rattle.stil_ast.specs.Data.Places.{Body};
ghost use Rattle.stil_ast.specs.Data.Written.{Written};
ghost use Rattle.stil_ast.specs.Meaning.Dealing.{takers};
ghost use Rattle.stil_ast.specs.Meaning.Resolved.{resolved, resolved_assign, resolved_assigns, resolved_step};
ghost use Rattle.stil_ast.specs.Meaning.Shift.{taking};
ghost use Rattle.stil_ast.specs.Meaning.Signals.{Names};
ghost use Rattle.stil_ast.specs.Meaning.Statements.{Statements};
ghost use Rattle.macro_expand.specs.Scopes.{scope_in, IsNamed};

use crate::pairing::{Pair, pair_up};
use crate::reference::members;
use crate::rules::add_takers;
use crate::scope::PatternScope;
use std::alloc::{AllocError, Global};
use stil_ast::{AssignmentList, AssignmentParts, PatAction, PatBody, Step};

/// The signals that have a `#` in a body, those of its V and C and not of the bodies in it.
pub(crate) fn takers_of(
    alloc: Global,
    scope: &PatternScope,
    body: &PatBody,
) -> Result<Vec<u16>, AllocError>
    ensures { IfOk result (λ found. (names : Names) (kind : Body) → IsNamed names scope.now
        → found.items ≡ taking (resolved (scope_in names scope.now) kind body.now)) }
{
    let mut found = Vec::new(alloc);
    for stmt in body.as_slice() {
        add_action(alloc, scope, &stmt.action, &mut found)?;
    }
    Ok(found)
}

/// Puts the signals that have a `#` in what a statement does behind the others.
fn add_action(
    alloc: Global,
    scope: &PatternScope,
    action: &PatAction,
    found: &mut Vec<u16>,
) -> Result<(), AllocError>
    ensures { OnOk result ((names : Names) (kind : Body) (line : ℕ) (rest : Written) → IsNamed names scope.now
        → found.new.items ++ taking (resolved (scope_in names scope.now) kind rest)
        ≡ found.old.items ++ taking (resolved (scope_in names scope.now) kind (written_front line action.now rest))) }
{
    match action {
        PatAction::Step(step) => add_step(alloc, scope, step, found),
        PatAction::Loop(_, _) => Ok(()),
        PatAction::Shift(_) => Ok(()),
    }
}

/// Puts the signals that have a `#` in a V or a C behind the others.
#[tactic(auto, using(crate::proofs::TakingLemmas::taken_in_front))]
fn add_step(
    alloc: Global,
    scope: &PatternScope,
    step: &Step,
    found: &mut Vec<u16>,
) -> Result<(), AllocError>
    ensures { OnOk result ((names : Names) (rest : Statements) → IsNamed names scope.now
        → found.new.items ++ taking rest
        ≡ found.old.items ++ taking (resolved_step (scope_in names scope.now) step.now rest)) }
{
    match step {
        Step::Vector(assigns) => add_assignments(alloc, scope, assigns, found),
        Step::Condition(assigns) => add_assignments(alloc, scope, assigns, found),
        Step::Wave(_) => Ok(()),
        Step::Macro(_, _) => Ok(()),
        Step::Call(_, _) => Ok(()),
        Step::BreakPoint => Ok(()),
        Step::IddqTestPoint => Ok(()),
        Step::Stop => Ok(()),
    }
}

/// Puts the signals that get a `#` in assignments behind the others.
fn add_assignments(
    alloc: Global,
    scope: &PatternScope,
    assigns: &AssignmentList,
    found: &mut Vec<u16>,
) -> Result<(), AllocError>
    ensures { OnOk result ((names : Names) → IsNamed names scope.now
        → found.new.items ≡ found.old.items ++ takers (resolved_assigns names assigns.now)) }
{
    let mut pairs = Vec::new(alloc);
    for parts in assigns.cursor() {
        add_assignment(alloc, scope, &parts, &mut pairs, found)?;
    }
    Ok(())
}

/// Puts the signals that get a `#` in an assignment behind the others.
fn add_assignment(
    alloc: Global,
    scope: &PatternScope,
    parts: &AssignmentParts,
    pairs: &mut Vec<Pair>,
    found: &mut Vec<u16>,
) -> Result<(), AllocError>
    ensures { OnOk result ((names : Names) → IsNamed names scope.now
        → found.new.items ≡ found.old.items ++ takers (resolved_assign names (assignment_said parts.now) ∷ [])) }
{
    let signals = members(alloc, scope.signals, parts)?;
    pair_up(signals.as_slice(), parts.runs, pairs)?;
    add_takers(pairs.as_slice(), found)?;
    Ok(())
}
