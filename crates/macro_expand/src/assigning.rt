//! The assignments of V and C.

ghost use Rattle.std.specs.Prelude.{◌≡◌, ◌+◌, ◌∷◌, [], true, length};
ghost use Rattle.stil_ast.specs.Data.Assignments.{assignment_said};
ghost use Rattle.stil_ast.specs.Meaning.Dealing.{deal, mark_of};
ghost use Rattle.stil_ast.specs.Meaning.Resolved.{resolved_assign, resolved_assigns, setting_of};
ghost use Rattle.stil_ast.specs.Meaning.Signals.{Names};
ghost use Rattle.stil_ast.specs.Faults.AssignmentFaults.{may_walk, check_assign, check_assigns};
ghost use Rattle.macro_expand.specs.Scopes.{titles_in, scope_in, IsNamed};
ghost use Rattle.macro_expand.specs.Standings.{standing_in};
ghost use Rattle.macro_expand.specs.Stepping.{WritesOr, StepsOr, spot_on};
ghost use Rattle.stil_ast.specs.Meaning.Flattening.{cycle_piece, gifts_piece};

use crate::arguments::Arguments;
use crate::pairing::Pair;
use crate::placing::place;
use crate::reference::resolved_again;
use crate::scope::PatternScope;
use crate::signal_set::SignalSet;
use crate::standing::Standing;
use crate::trouble::Trouble;
use crate::walk::Walk;
use flat_tree::Origin;
use std::alloc::Global;
use std::mem;
use stil_ast::{AssignmentList, AssignmentParts, StilKind};
use text_bytes::MOST_WALKED;

/// Whether so many more may be walked.
pub(crate) fn may_walk(count: u32, more: usize) -> bool
    ensures { result ≡ may_walk (count + more) }
{
    count <= MOST_WALKED && more <= (MOST_WALKED - count) as usize
}

/// An assignment of V or C: its reference, the limit, and then the other rules.
fn walk_assignment(
    alloc: Global,
    scope: &PatternScope,
    s: &Standing,
    parts: &AssignmentParts,
    pairs: &mut Vec<Pair>,
    walk: &mut Walk,
) -> Result<(), Trouble>
    ensures { (names : Names) → IsNamed names scope.now → WritesOr (titles_in scope.now.titles)
        (check_assign (scope_in names scope.now) (standing_in (scope_in names scope.now) s.now)
        (assignment_said parts.now))
        (resolved_assign names (assignment_said parts.now) ∷ []) walk.old walk.new result }
{
    match resolved_again(alloc, scope.signals, s, parts, &mut walk.references) {
        Ok(found) => {
            let signals = found.as_slice();
            if !may_walk(walk.count, signals.len()) {
                return Err(s.trouble(StilKind::TooLarge, parts.line));
            }
            place(s, parts.line, signals, parts.runs, pairs, walk)
        }
        Err(trouble) => Err(trouble),
    }
}

/// The assignments of a V or a C, in text order.
fn walk_assignments(
    alloc: Global,
    scope: &PatternScope,
    s: &Standing,
    assigns: &AssignmentList,
    walk: &mut Walk,
) -> Result<(), Trouble>
    ensures { (names : Names) → IsNamed names scope.now → WritesOr (titles_in scope.now.titles)
        (check_assigns (scope_in names scope.now) (standing_in (scope_in names scope.now) s.now) assigns.now)
        (resolved_assigns names assigns.now) walk.old walk.new result }
{
    let mut pairs = mem::replace(&mut walk.pairs, Vec::new(alloc));
    for parts in assigns.cursor() {
        match walk_assignment(alloc, scope, s, &parts, &mut pairs, walk) {
            Ok(()) => {}
            Err(trouble) => return Err(trouble),
        }
    }
    walk.pairs = pairs;
    Ok(())
}

/// How many characters the first signal at which a chain ends and which took one has then taken, 0 where none did.
fn mark(scan_outs: &[u16], taken: &SignalSet, args: &Arguments) -> u32
    ensures { result ≡ mark_of scan_outs.now taken.now args.now }
{
    for signal in scan_outs {
        if taken.has(*signal) {
            return args.taken(*signal);
        }
    }
    0
}

/// V: assigns, and makes a vector.
#[tactic(auto, using(crate::proofs::StepLemmas::vector_steps))]
pub(crate) fn walk_vector(
    alloc: Global,
    scope: &PatternScope,
    s: &Standing,
    line: u32,
    assigns: &AssignmentList,
    walk: &mut Walk,
) -> Result<(), Trouble>
    ensures { (names : Names) → IsNamed names scope.now → StepsOr (titles_in scope.now.titles)
        (check_assigns (scope_in names scope.now) (standing_in (scope_in names scope.now) s.now) assigns.now)
        (cycle_piece (setting_of (scope_in names scope.now) scope.now.scan_outs.now)
        (resolved_assigns names assigns.now)
        (deal (resolved_assigns names assigns.now) walk.old.args) (spot_on s.now.body line walk.old))
        walk.old walk.new result }
{
    walk.taken.clear();
    match walk_assignments(alloc, scope, s, assigns, walk) {
        Ok(()) => {
            let mark = mark(scope.scan_outs, &walk.taken, &walk.args);
            let place = Origin { body: s.body, line };
            walk.out.push_cycle(mark, place)?;
            Ok(())
        }
        Err(trouble) => Err(trouble),
    }
}

/// C: assigns.
#[tactic(auto, using(crate::proofs::StepLemmas::condition_steps_or))]
pub(crate) fn walk_condition(
    alloc: Global,
    scope: &PatternScope,
    s: &Standing,
    line: u32,
    assigns: &AssignmentList,
    walk: &mut Walk,
) -> Result<(), Trouble>
    ensures { (names : Names) → IsNamed names scope.now → StepsOr (titles_in scope.now.titles)
        (check_assigns (scope_in names scope.now) (standing_in (scope_in names scope.now) s.now) assigns.now)
        (gifts_piece (deal (resolved_assigns names assigns.now) walk.old.args) (spot_on s.now.body line walk.old))
        walk.old walk.new result }
{
    let _line = line;
    walk.taken.clear();
    walk_assignments(alloc, scope, s, assigns, walk)
}
