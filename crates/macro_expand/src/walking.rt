//! Statements in order, with all that stands in them and the bodies that they name.

ghost use Rattle.std.specs.Prelude.{◌≡◌, ◌<◌, ◌≤◌, ℕ, List, Option, Some, length};
ghost use Rattle.text_bytes.specs.Limits.{deepest_calls};
ghost use Rattle.stil_ast.specs.Data.Places.{of_pattern};
ghost use Rattle.stil_ast.specs.Meaning.Arguments.{Argument, arguments};
ghost use Rattle.stil_ast.specs.Meaning.Resolved.{origin, resolved, resolved_assigns};
ghost use Rattle.stil_ast.specs.Meaning.Signals.{Names};
ghost use Rattle.stil_ast.specs.Faults.PatternFaults.{inside_body, check_call};
ghost use Rattle.flat_tree.specs.Origins.{body_of};
ghost use Rattle.macro_expand.specs.Actions.{is_stop, step_check, loop_check, action_check, statement_check, step_piece, loop_piece, action_piece};
ghost use Rattle.macro_expand.specs.Calling.{statements_of, RunsOr};
ghost use Rattle.macro_expand.specs.Recursing.{setting_in, stands, check_named, flat_named, ListSteps};
ghost use Rattle.macro_expand.specs.Scopes.{titles_in, scope_in, IsNamed};
ghost use Rattle.macro_expand.specs.Standings.{callee_in};
ghost use Rattle.macro_expand.specs.Stepping.{StepsOr, spot_on};
ghost use Rattle.stil_ast.specs.declared.body.Step.TheVariants.{Macro, Call};

use crate::assigning::{walk_condition, walk_vector};
use crate::naming::{inside_of, may_call, own_walk, walk_wave};
use crate::rules::count_one;
use crate::scope::PatternScope;
use crate::shifting::walk_shift;
use crate::standing::{Callee, Standing};
use crate::trouble::Trouble;
use crate::walk::Walk;
use flat_tree::{BodyKind, FlatList};
use std::alloc::Global;
use std::mem;
use stil_ast::{AssignmentList, BodyDef, PatAction, PatBody, PatStmt, Step, StilKind};
use text_bytes::DEEPEST_LOOPS;

/// Whether nothing behind a statement is walked.
fn is_stop(stmt: &PatStmt) -> bool
    ensures { result ≡ is_stop stmt.now.action }
{
    match &stmt.action {
        PatAction::Step(step) => matches!(step, Step::Stop),
        PatAction::Loop(_, _) => false,
        PatAction::Shift(_) => false,
    }
}

/// Statements in order.
#[cycle(walk)]
pub(crate) fn walk_list(
    alloc: Global,
    scope: &PatternScope,
    s: &Standing,
    body: &PatBody,
    walk: &mut Walk,
) -> Result<(), Trouble>
    requires { s.now.calls ≤ deepest_calls }
    ensures { (names : Names) → IsNamed names scope.now
        → ListSteps names scope.now s.now body.now walk.old walk.new result }
{
    for stmt in body.as_slice() {
        if is_stop(stmt) {
            return count_one(s, stmt.line, walk);
        }
        match walk_statement(alloc, scope, s, stmt, walk) {
            Ok(()) => {}
            Err(trouble) => return Err(trouble),
        }
    }
    Ok(())
}

/// A statement, which counts.
#[cycle(walk)]
fn walk_statement(
    alloc: Global,
    scope: &PatternScope,
    s: &Standing,
    stmt: &PatStmt,
    walk: &mut Walk,
) -> Result<(), Trouble>
    requires { s.now.calls ≤ deepest_calls }
    ensures { (names : Names) → IsNamed names scope.now → StepsOr (titles_in scope.now.titles)
        (statement_check names scope.now s.now stmt.now.line stmt.now.action)
        (action_piece names scope.now s.now stmt.now.action (spot_on s.now.body stmt.now.line walk.old))
        walk.old walk.new result }
{
    match count_one(s, stmt.line, walk) {
        Ok(()) => walk_action(alloc, scope, s, stmt.line, &stmt.action, walk),
        Err(trouble) => Err(trouble),
    }
}

/// What a statement does.
#[cycle(walk)]
fn walk_action(
    alloc: Global,
    scope: &PatternScope,
    s: &Standing,
    line: u32,
    action: &PatAction,
    walk: &mut Walk,
) -> Result<(), Trouble>
    requires { s.now.calls ≤ deepest_calls }
    ensures { (names : Names) → IsNamed names scope.now → StepsOr (titles_in scope.now.titles)
        (action_check names scope.now s.now line action.now)
        (action_piece names scope.now s.now action.now (spot_on s.now.body line walk.old))
        walk.old walk.new result }
{
    match action {
        PatAction::Step(step) => walk_step(alloc, scope, s, line, step, walk),
        PatAction::Loop(times, body) => walk_loop(alloc, scope, s, line, *times, body, walk),
        PatAction::Shift(body) => walk_shift(alloc, scope, s, line, body, walk),
    }
}

/// What a statement without statements in it does.
#[cycle(walk)]
fn walk_step(
    alloc: Global,
    scope: &PatternScope,
    s: &Standing,
    line: u32,
    step: &Step,
    walk: &mut Walk,
) -> Result<(), Trouble>
    requires { s.now.calls ≤ deepest_calls }
    ensures { (names : Names) → IsNamed names scope.now → StepsOr (titles_in scope.now.titles)
        (step_check names scope.now s.now line step.now)
        (step_piece names scope.now s.now step.now (spot_on s.now.body line walk.old))
        walk.old walk.new result }
{
    match step {
        Step::Wave(name) => walk_wave(scope, s, line, name.as_slice(), walk),
        Step::Vector(assigns) => walk_vector(alloc, scope, s, line, assigns, walk),
        Step::Condition(assigns) => walk_condition(alloc, scope, s, line, assigns, walk),
        Step::Macro(name, assigns) => {
            walk_macro(
                alloc,
                scope,
                s,
                line,
                name.as_slice(),
                assigns.as_list(),
                walk,
            )
        }
        Step::Call(name, assigns) => {
            walk_call(
                alloc,
                scope,
                s,
                line,
                name.as_slice(),
                assigns.as_list(),
                walk,
            )
        }
        Step::BreakPoint => Ok(()),
        Step::IddqTestPoint => Ok(()),
        Step::Stop => Ok(()),
    }
}

/// Loop: its body is walked once, and stands in the tree once.
#[cycle(walk)]
fn walk_loop(
    alloc: Global,
    scope: &PatternScope,
    s: &Standing,
    line: u32,
    times: u64,
    body: &PatBody,
    walk: &mut Walk,
) -> Result<(), Trouble>
    requires { s.now.calls ≤ deepest_calls }
    ensures { (names : Names) → IsNamed names scope.now → StepsOr (titles_in scope.now.titles)
        (loop_check names scope.now s.now line body.now)
        (loop_piece names scope.now s.now times body.now (spot_on s.now.body line walk.old))
        walk.old walk.new result }
{
    if s.loops >= DEEPEST_LOOPS {
        return Err(s.trouble(StilKind::TooLarge, line));
    }
    if s.in_shift {
        return Err(s.trouble(StilKind::ShiftForm, line));
    }
    let inside = Standing {
        in_loop: true,
        loops: s.loops + 1,
        ..*s
    };
    let out = mem::replace(&mut walk.out, FlatList::new(alloc));
    match walk_list(alloc, scope, &inside, body, walk) {
        Ok(()) => {
            let inner = mem::replace(&mut walk.out, out);
            walk.out.push_repeat(times, inner)?;
            Ok(())
        }
        Err(trouble) => Err(trouble),
    }
}

/// Macro: its body stands in place.
#[cycle(walk)]
fn walk_macro(
    alloc: Global,
    scope: &PatternScope,
    s: &Standing,
    line: u32,
    name: &[u8],
    assigns: &AssignmentList,
    walk: &mut Walk,
) -> Result<(), Trouble>
    requires { s.now.calls ≤ deepest_calls }
    ensures { (names : Names) → IsNamed names scope.now → StepsOr (titles_in scope.now.titles)
        (step_check names scope.now s.now line (Macro name.now assigns.now))
        (step_piece names scope.now s.now (Macro name.now assigns.now) (spot_on s.now.body line walk.old))
        walk.old walk.new result }
{
    let callee = Callee {
        kind: BodyKind::Macro,
        number: scope.macros.number(name),
    };
    let out = mem::replace(&mut walk.out, FlatList::new(alloc));
    match walk_named(alloc, scope, s, line, callee, assigns, walk.count, out) {
        Ok(own) => {
            walk.count = own.count;
            walk.out = own.out;
            Ok(())
        }
        Err(trouble) => Err(trouble),
    }
}

/// Call: the procedure's body stands in a save that puts all back, where it has a vector; else only its loops stay.
#[cycle(walk)]
fn walk_call(
    alloc: Global,
    scope: &PatternScope,
    s: &Standing,
    line: u32,
    name: &[u8],
    assigns: &AssignmentList,
    walk: &mut Walk,
) -> Result<(), Trouble>
    requires { s.now.calls ≤ deepest_calls }
    ensures { (names : Names) → IsNamed names scope.now → StepsOr (titles_in scope.now.titles)
        (step_check names scope.now s.now line (Call name.now assigns.now))
        (step_piece names scope.now s.now (Call name.now assigns.now) (spot_on s.now.body line walk.old))
        walk.old walk.new result }
{
    let callee = Callee {
        kind: BodyKind::Procedure,
        number: scope.procedures.number(name),
    };
    let out = FlatList::new(alloc);
    match walk_named(alloc, scope, s, line, callee, assigns, walk.count, out) {
        Ok(own) => {
            walk.count = own.count;
            walk.out.push_call(own.out)?;
            Ok(())
        }
        Err(trouble) => Err(trouble),
    }
}

/// The body that a Macro or a Call names, with its own arguments, behind a tree.
#[cycle(walk)]
fn walk_named(
    alloc: Global,
    scope: &PatternScope,
    s: &Standing,
    line: u32,
    callee: Callee,
    assigns: &AssignmentList,
    count: u32,
    out: FlatList,
) -> Result<Walk, Trouble>
    requires { s.now.calls ≤ deepest_calls }
    ensures { (names : Names) (args : List Argument) (hashes : List ℕ) → IsNamed names scope.now
        → RunsOr (titles_in scope.now.titles)
        (check_call (scope_in names scope.now) (check_named names scope.now s.now) (stands names scope.now s.now) line
        (callee_in (scope_in names scope.now) callee) assigns.now)
        (flat_named names scope.now s.now
        (statements_of (scope_in names scope.now) (callee_in (scope_in names scope.now) callee))
        (record {
          args = arguments (length (setting_in names scope.now).outs) (resolved_assigns names assigns.now);
          place = origin (body_of s.now.body) line;
        }))
        args hashes count out result }
{
    match may_call(scope, s, line, callee) {
        Ok(def) => match own_walk(alloc, scope, s, assigns, count, out) {
            Ok(mut own) => match walk_body(alloc, scope, s, callee, def, &mut own) {
                Ok(()) => Ok(own),
                Err(trouble) => Err(trouble),
            },
            Err(trouble) => Err(trouble),
        },
        Err(trouble) => Err(trouble),
    }
}

/// The statements of a body, one call deeper.
#[cycle(walk)]
fn walk_body(
    alloc: Global,
    scope: &PatternScope,
    s: &Standing,
    callee: Callee,
    def: &BodyDef,
    own: &mut Walk,
) -> Result<(), Trouble>
    requires calls { s.now.calls < deepest_calls }
    requires found { (names : Names) → (callee_in (scope_in names scope.now) callee).found ≡ Some def.now }
    ensures { (names : Names) → IsNamed names scope.now → StepsOr (titles_in scope.now.titles)
        (check_named names scope.now s.now
        (inside_body (callee_in (scope_in names scope.now) callee) (stands names scope.now s.now)) def.now.body)
        (flat_named names scope.now s.now
        (Some (resolved (scope_in names scope.now) (body_of callee.kind) def.now.body))
        (record { args = own.old.args; place = origin of_pattern 0 }))
        own.old own.new result }
{
    let running = inside_of(alloc, callee, s.running)?;
    let inside = Standing {
        body: callee.kind,
        in_loop: false,
        in_shift: false,
        without_pass: false,
        loops: s.loops,
        calls: s.calls + 1,
        running: running.as_slice(),
    };
    walk_list(alloc, scope, &inside, &def.body, own)
}
