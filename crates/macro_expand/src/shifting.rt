//! Shift: its body runs once for each character that is left to the signals that have a `#` in it (IEEE 1450-1999,
//! clauses 21 and 24).

ghost use Rattle.std.specs.Prelude.{◌≡◌, ◌≤◌, ℕ, true, IfOk, OnOk};
ghost use Rattle.text_bytes.specs.Limits.{deepest_calls};
ghost use Rattle.stil_ast.specs.Data.Places.{Body};
ghost use Rattle.stil_ast.specs.Meaning.Resolved.{Scope, outs_of, resolved};
ghost use Rattle.stil_ast.specs.Meaning.Shift.{taking, passes, columns};
ghost use Rattle.stil_ast.specs.Meaning.Signals.{Names};
ghost use Rattle.stil_ast.specs.Faults.PatternFaults.{is_called, may_shift, takers_in};
ghost use Rattle.flat_tree.specs.Origins.{body_of};
ghost use Rattle.macro_expand.specs.Scopes.{scope_in, IsNamed};
ghost use Rattle.macro_expand.specs.Standings.{standing_in};
ghost use Rattle.macro_expand.specs.Recursing.{stands, ShiftSteps};
ghost use Rattle.macro_expand.specs.Passes.{PassesStep};

use crate::arguments::Arguments;
use crate::scope::PatternScope;
use crate::signal_set::SignalSet;
use crate::standing::Standing;
use crate::taking::takers_of;
use crate::trouble::Trouble;
use crate::walk::Walk;
use crate::walking::walk_list;
use flat_tree::{BodyKind, FlatList};
use std::alloc::{AllocError, Global};
use std::mem;
use stil_ast::{PatBody, StilKind};

/// Whether a body is a macro's or a procedure's.
fn is_called(body: BodyKind) -> bool
    ensures { result ≡ is_called (body_of body) }
{
    match body {
        BodyKind::Pattern => false,
        BodyKind::Macro => true,
        BodyKind::Procedure => true,
    }
}

/// Whether a Shift may stand there.
fn may_shift(s: &Standing) -> bool
    ensures { (sc : Scope) → result ≡ may_shift (standing_in sc s.now) }
{
    is_called(s.body) && !s.in_loop && !s.in_shift
}

/// How often a Shift runs this body; what is left to the signals that take in it becomes their columns.
fn begin_passes(
    alloc: Global,
    scope: &PatternScope,
    body: &PatBody,
    args: &mut Arguments,
) -> Result<usize, AllocError>
    ensures counted { IfOk result (λ count. (names : Names) (kind : Body) → IsNamed names scope.now
        → passes (taking (resolved (scope_in names scope.now) kind body.now)) args.old ≡ count) }
    ensures laid { OnOk result ((names : Names) (kind : Body) → IsNamed names scope.now
        → args.new ≡ columns (outs_of names) (taking (resolved (scope_in names scope.now) kind body.now)) args.old) }
{
    let takers = takers_of(alloc, scope, body)?;
    let count = args.passes(takers.as_slice());
    args.lay_columns(scope.outs, takers.as_slice());
    Ok(count)
}

/// A Shift: it may stand only in a macro or a procedure, and in no Loop of it and no other Shift. Its passes stand in a
/// save that puts nothing back.
#[cycle(walk)]
pub(crate) fn walk_shift(
    alloc: Global,
    scope: &PatternScope,
    s: &Standing,
    line: u32,
    body: &PatBody,
    walk: &mut Walk,
) -> Result<(), Trouble>
    requires { s.now.calls ≤ deepest_calls }
    ensures { (names : Names) → IsNamed names scope.now
        → ShiftSteps names scope.now s.now line body.now walk.old walk.new result }
{
    if !may_shift(s) {
        return Err(s.trouble(StilKind::ShiftForm, line));
    }
    let count = begin_passes(alloc, scope, body, &mut walk.args)?;
    if count == 0 {
        return walk_without(alloc, scope, s, body, walk);
    }
    let out = mem::replace(&mut walk.out, FlatList::new(alloc));
    let inside = Standing {
        in_shift: true,
        without_pass: false,
        ..*s
    };
    match walk_passes(alloc, scope, &inside, count, body, walk) {
        Ok(()) => {
            let passes = mem::replace(&mut walk.out, out);
            walk.out.push_save(false, passes)?;
            Ok(())
        }
        Err(trouble) => Err(trouble),
    }
}

/// A Shift without a pass: its body is walked once, but for data, and what that writes is dropped.
#[cycle(walk)]
fn walk_without(
    alloc: Global,
    scope: &PatternScope,
    s: &Standing,
    body: &PatBody,
    walk: &mut Walk,
) -> Result<(), Trouble>
    requires { s.now.calls ≤ deepest_calls }
    ensures { (names : Names) (line : ℕ) → IsNamed names scope.now → may_shift (stands names scope.now s.now) ≡ true
        → passes (takers_in (scope_in names scope.now) (stands names scope.now s.now) body.now) walk.old.args ≡ 0
        → ShiftSteps names scope.now s.now line body.now walk.old walk.new result }
{
    let hashes = mem::replace(&mut walk.hashes, SignalSet::new(alloc));
    let out = mem::replace(&mut walk.out, FlatList::new(alloc));
    let inside = Standing {
        in_shift: true,
        without_pass: true,
        ..*s
    };
    match walk_list(alloc, scope, &inside, body, walk) {
        Ok(()) => {
            walk.hashes = hashes;
            walk.out = out;
            walk.out.push_save(false, FlatList::new(alloc))?;
            Ok(())
        }
        Err(trouble) => Err(trouble),
    }
}

/// So many passes of a Shift. A signal may have one `#` in each, so those of the pass before are forgotten. The references
/// are found where they were found in the pass before.
#[cycle(walk)]
fn walk_passes(
    alloc: Global,
    scope: &PatternScope,
    inside: &Standing,
    count: usize,
    body: &PatBody,
    walk: &mut Walk,
) -> Result<(), Trouble>
    requires { inside.now.calls ≤ deepest_calls }
    ensures { (names : Names) (line : ℕ) → IsNamed names scope.now
        → PassesStep names scope.now inside.now line count body.now walk.old walk.new result }
{
    for _ in 0..count {
        walk.hashes.clear();
        walk.references.again();
        match walk_list(alloc, scope, inside, body, walk) {
            Ok(()) => {}
            Err(trouble) => return Err(trouble),
        }
    }
    walk.references.forget();
    Ok(())
}
