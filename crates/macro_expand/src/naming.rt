//! What a W, a Macro or a Call names.

ghost use Rattle.std.specs.Prelude.{◌≡◌, ℕ, List, ◌∷◌, length, map, IfOk};
ghost use Rattle.std.specs.List.{position_or_len};
ghost use Rattle.std.specs.Option.{option_copied};
ghost use Rattle.stil_ast.specs.Data.Texts.{same};
ghost use Rattle.stil_ast.specs.Meaning.Arguments.{Argument};
ghost use Rattle.stil_ast.specs.Meaning.Resolved.{resolved_assigns};
ghost use Rattle.stil_ast.specs.Meaning.Signals.{Names};
ghost use Rattle.stil_ast.specs.Faults.AssignmentFaults.{check_arguments};
ghost use Rattle.tester_types.specs.declared.wave.Table.{Table};
ghost use Rattle.macro_expand.specs.Calling.{wave_check, wave_piece, CallsOr, BeginsOr};
ghost use Rattle.macro_expand.specs.Scopes.{titles_in, scope_in, IsNamed};
ghost use Rattle.macro_expand.specs.Standings.{callee_in, standing_in};
ghost use Rattle.macro_expand.specs.Stepping.{StepsOr, spot_on};

use crate::arguments::Arguments;
use crate::giving::walk_arguments;
use crate::references::References;
use crate::rules::is_running;
use crate::scope::PatternScope;
use crate::signal_set::SignalSet;
use crate::standing::{Callee, Standing};
use crate::trouble::Trouble;
use crate::walk::Walk;
use flat_tree::{BodyKind, FlatList};
use std::alloc::{AllocError, Global};
use stil_ast::{AssignmentList, BodyDef, StilKind};
use text_bytes::DEEPEST_CALLS;
use wave_tables::WaveSet;

/// The number of the first table of this name, or one past the last.
fn table_number(tables: &WaveSet, name: &[u8]) -> usize
    ensures { result ≡ position_or_len (same name.now) (map (λ (t : Table). t.name) tables.now) }
{
    for number in 0..tables.len() {
        if name == tables.name(number) {
            return number;
        }
    }
    tables.len()
}

/// W: a table from here on. A flat tree has no name for a table past the first 65,536, more than any text has: there it
/// can't be held.
pub(crate) fn walk_wave(
    scope: &PatternScope,
    s: &Standing,
    line: u32,
    name: &[u8],
    walk: &mut Walk,
) -> Result<(), Trouble>
    ensures { (names : Names) → StepsOr (titles_in scope.now.titles)
        (wave_check (scope_in names scope.now) (standing_in (scope_in names scope.now) s.now) line name.now)
        (wave_piece (scope_in names scope.now) name.now (spot_on s.now.body line walk.old)) walk.old walk.new result }
{
    let number = table_number(scope.tables, name);
    if number == scope.tables.len() {
        return Err(s.trouble(StilKind::UnknownName, line));
    }
    if number > usize::from(u16::MAX) {
        return Err(Trouble::NoMemory);
    }
    walk.out.push_table(number as u16)?;
    Ok(())
}

/// The body for which a number stands.
fn body_of<'a>(scope: &PatternScope<'_, 'a>, callee: Callee) -> Option<&'a BodyDef>
    ensures { (names : Names) → option_copied result ≡ (callee_in (scope_in names scope.now) callee).found }
{
    match callee.kind {
        BodyKind::Pattern => None,
        BodyKind::Macro => scope.macros.get(callee.number),
        BodyKind::Procedure => scope.procedures.get(callee.number),
    }
}

/// The body that a Macro or a Call names, where it may run: calls go only so deep, none stands in a Shift, the body is
/// known, and it doesn't run already.
pub(crate) fn may_call<'a>(
    scope: &PatternScope<'_, 'a>,
    s: &Standing,
    line: u32,
    callee: Callee,
) -> Result<&'a BodyDef, Trouble>
    ensures { (names : Names) → CallsOr (scope_in names scope.now) (standing_in (scope_in names scope.now) s.now) line
        (callee_in (scope_in names scope.now) callee) result }
{
    if s.calls >= DEEPEST_CALLS {
        return Err(s.trouble(StilKind::TooLarge, line));
    }
    if s.in_shift {
        return Err(s.trouble(StilKind::ShiftForm, line));
    }
    match body_of(scope, callee) {
        Some(def) => {
            if is_running(callee, s.running) {
                return Err(s.trouble(StilKind::Cyclic, line));
            }
            Ok(def)
        }
        None => Err(s.trouble(StilKind::UnknownName, line)),
    }
}

/// What a body begins with: its own arguments, and the tree behind which it is written.
pub(crate) fn own_walk(
    alloc: Global,
    scope: &PatternScope,
    s: &Standing,
    assigns: &AssignmentList,
    count: u32,
    out: FlatList,
) -> Result<Walk, Trouble>
    ensures { (names : Names) (args : List Argument) (hashes : List ℕ) → IsNamed names scope.now
        → BeginsOr (titles_in scope.now.titles)
        (check_arguments (scope_in names scope.now) (standing_in (scope_in names scope.now) s.now) assigns.now)
        (resolved_assigns names assigns.now) (length names.signals) args hashes count out result }
{
    let mut given = Arguments::new(alloc, scope.outs.len())?;
    let mut walked = count;
    match walk_arguments(alloc, scope, s, assigns, &mut walked, &mut given) {
        Ok(()) => Ok(Walk {
            args: given,
            hashes: SignalSet::new(alloc),
            taken: SignalSet::new(alloc),
            count: walked,
            out,
            pairs: Vec::new(alloc),
            references: References::new(alloc),
        }),
        Err(trouble) => Err(trouble),
    }
}

/// A body in front of those inside which it runs.
pub(crate) fn inside_of(
    alloc: Global,
    callee: Callee,
    running: &[Callee],
) -> Result<Vec<Callee>, AllocError>
    ensures { IfOk result (λ bodies. bodies.items ≡ callee ∷ running.now) }
{
    let mut bodies = Vec::new(alloc);
    bodies.push(callee)?;
    bodies.extend_from_slice(running)?;
    Ok(bodies)
}
