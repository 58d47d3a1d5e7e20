//! The arguments of a Macro or a Call.

ghost use Rattle.std.specs.Prelude.{◌≡◌, ◌==◌, ◌%◌, ◌∷◌, [], ℕ, List, if◌then◌else◌};
ghost use Rattle.std.specs.List.{list_all};
ghost use Rattle.stil_ast.specs.Data.Assignments.{assignment_said};
ghost use Rattle.stil_ast.specs.Data.Items.{item_of, run_length};
ghost use Rattle.stil_ast.specs.Meaning.Arguments.{Argument};
ghost use Rattle.stil_ast.specs.Meaning.Dealing.{is_character};
ghost use Rattle.stil_ast.specs.Meaning.Resolved.{resolved_assign, resolved_assigns};
ghost use Rattle.stil_ast.specs.Meaning.Signals.{Names};
ghost use Rattle.stil_ast.specs.Faults.AssignmentFaults.{check_argument, check_arguments};
ghost use Rattle.macro_expand.specs.Giving.{has_characters, GivesOr};
ghost use Rattle.macro_expand.specs.Scopes.{titles_in, scope_in, IsNamed};
ghost use Rattle.macro_expand.specs.Standings.{standing_in};

use crate::arguments::Arguments;
use crate::assigning::may_walk;
use crate::reference::resolved;
use crate::scope::PatternScope;
use crate::standing::Standing;
use crate::trouble::Trouble;
use std::alloc::Global;
use stil_ast::{AssignmentList, AssignmentParts, ItemRun, StilKind, VecItem};

/// Whether an item is a character.
fn is_character(item: VecItem) -> bool
    ensures { result ≡ is_character (item_of item) }
{
    match item {
        VecItem::Character(_) => true,
        VecItem::Take => false,
        VecItem::Peek => false,
    }
}

/// Whether a run has characters alone.
fn has_characters(run: ItemRun) -> bool
    ensures { result ≡ has_characters run }
{
    run.times == 0 || is_character(run.item)
}

/// Whether runs have characters alone.
fn are_characters(runs: &[ItemRun]) -> bool
    ensures { result ≡ list_all has_characters runs.now }
{
    for run in runs {
        if !has_characters(*run) {
            return false;
        }
    }
    true
}

/// How many items runs stand for.
fn run_total(runs: &[ItemRun]) -> u128
    ensures { result ≡ run_length runs.now }
{
    let mut total: u128 = 0;
    for run in runs {
        total += u128::from(run.times);
    }
    total
}

/// Whether runs have a whole number of characters for each of so many signals.
fn argument_fits(count: usize, runs: &[ItemRun]) -> bool
    ensures { result ≡ (if count == 0 then run_length runs.now == 0 else run_length runs.now % count == 0) }
{
    let total = run_total(runs);
    if count == 0 {
        return total == 0;
    }
    total % (count as u128) == 0
}

/// An argument of a Macro or a Call: its reference, the limit, that it has neither `#` nor `%`, the width. It is given
/// to the body's signals.
fn walk_argument(
    alloc: Global,
    scope: &PatternScope,
    s: &Standing,
    parts: &AssignmentParts,
    count: &mut u32,
    given: &mut Arguments,
) -> Result<(), Trouble>
    ensures { (names : Names) (args : List Argument) (hashes : List ℕ) → IsNamed names scope.now
        → GivesOr (titles_in scope.now.titles)
        (check_argument (scope_in names scope.now) (standing_in (scope_in names scope.now) s.now)
        (assignment_said parts.now))
        (resolved_assign names (assignment_said parts.now) ∷ []) args hashes count.old count.new given.old given.new
        result }
{
    match resolved(alloc, scope.signals, s, parts) {
        Ok(found) => {
            let signals = found.as_slice();
            if !may_walk(*count, signals.len()) {
                return Err(s.trouble(StilKind::TooLarge, parts.line));
            }
            if !are_characters(parts.runs) {
                return Err(s.trouble(StilKind::ShiftForm, parts.line));
            }
            if !argument_fits(signals.len(), parts.runs) {
                return Err(s.trouble(StilKind::Width, parts.line));
            }
            given.give(signals, parts.runs)?;
            *count += signals.len() as u32;
            Ok(())
        }
        Err(trouble) => Err(trouble),
    }
}

/// The arguments of a Macro or a Call, in text order.
pub(crate) fn walk_arguments(
    alloc: Global,
    scope: &PatternScope,
    s: &Standing,
    assigns: &AssignmentList,
    count: &mut u32,
    given: &mut Arguments,
) -> Result<(), Trouble>
    ensures { (names : Names) (args : List Argument) (hashes : List ℕ) → IsNamed names scope.now
        → GivesOr (titles_in scope.now.titles)
        (check_arguments (scope_in names scope.now) (standing_in (scope_in names scope.now) s.now) assigns.now)
        (resolved_assigns names assigns.now) args hashes count.old count.new given.old given.new result }
{
    for parts in assigns.cursor() {
        match walk_argument(alloc, scope, s, &parts, count, given) {
            Ok(()) => {}
            Err(trouble) => return Err(trouble),
        }
    }
    Ok(())
}
