//! The flat tree of a pattern, or the first fault of its statements (IEEE 1450-1999, clauses 21 to 24).

ghost use Rattle.std.specs.Prelude.{◌≡◌, ◌⊎◌, OnErr, IfOk, IfErr, MatchResult};
ghost use Rattle.stil_ast.specs.Meaning.Signals.{Names};
ghost use Rattle.stil_ast.specs.Faults.AssignmentFaults.{Walked, fine, refused};
ghost use Rattle.stil_ast.specs.declared.fault.StilFault.{StilFault};
ghost use Rattle.answers.specs.declared.short.Short.TheVariants as refusal;
ghost use Rattle.macro_expand.specs.Expanding.{pattern_check, IsTreeOf, Expands, IsPatternFault, WalksOr, ExpandsOr};
ghost use Rattle.macro_expand.specs.Scopes.{IsNamed};

use crate::arguments::Arguments;
use crate::references::References;
use crate::refusing::refusal_of;
use crate::scope::PatternScope;
use crate::signal_set::SignalSet;
use crate::standing::Standing;
use crate::trouble::Trouble;
use crate::walk::Walk;
use crate::walking::walk_list;
use flat_tree::{BodyKind, FlatList};
use std::alloc::Global;
use stil_ast::{PatBody, StilRefusal};

/// The flat tree of a pattern's own statements, whose signals, tables, macros and procedures the scope has, lean for so
/// many signals as there are. `walked` counts the statements walked and the signals assigned of all patterns before, and
/// then those of this one too: a statement once for each call and each pass of a Shift that runs it, and once for a Loop
/// whatever its count is. What stands behind a Stop is neither checked nor counted.
///
/// The first fault of the statements in the order in which they first run refuses, at its line: TooLarge where calls go
/// deeper than 64, loops over all calls deeper than 64, or more than 2^26 were walked; UnknownName for a table, a macro,
/// a procedure or a signal, and Shape for a reference that is none; Cyclic for a body that runs already; ShiftForm for a
/// Macro, Call, Loop or Shift that may not stand in a Shift, for a Shift outside of a macro or procedure or in a Loop of
/// it, for a `#` in a Loop or a second one of a signal in a pass, and for an argument that isn't of characters; Width;
/// NoData for a `#` or `%` that finds no character. After a refusal `walked` is as before.
pub fn expand(
    alloc: Global,
    scope: &PatternScope,
    body: &PatBody,
    walked: &mut u32,
) -> Result<FlatList, StilRefusal>
    ensures found { (names : Names) → IsNamed names scope.now
        → IfOk result (λ flat. Expands names scope.now body.now walked.old flat walked.new) }
    ensures only { (names : Names) (w : Walked) → IsNamed names scope.now
        → pattern_check names scope.now body.now walked.old ≡ fine w
        → MatchResult result (λ flat. IsTreeOf names scope.now body.now flat × (walked.new ≡ w.count))
        (λ r. r ≡ refusal.NoMemory) }
    ensures fault { (names : Names) → IsNamed names scope.now
        → IfErr result (λ r. (r ≡ refusal.NoMemory) ⊎ IsPatternFault names scope.now body.now walked.old r) }
    ensures refused { (names : Names) (f : StilFault) → IsNamed names scope.now
        → pattern_check names scope.now body.now walked.old ≡ refused f
        → MatchResult result (λ _. ⊥) (λ r. (r ≡ refusal.NoMemory) ⊎ (r ≡ refusal.Fault f)) }
    ensures kept { OnErr result (walked.new ≡ walked.old) }
{
    expanded(alloc, scope, body, walked)
}

/// The same, with what is answered as one fact.
fn expanded(
    alloc: Global,
    scope: &PatternScope,
    body: &PatBody,
    walked: &mut u32,
) -> Result<FlatList, StilRefusal>
    ensures answer { (names : Names) → IsNamed names scope.now
        → ExpandsOr names scope.now body.now walked.old walked.new result }
    ensures kept { OnErr result (walked.new ≡ walked.old) }
{
    match walk_pattern(alloc, scope, body, *walked) {
        Ok(walk) => {
            let flat = walk.out.only_last(alloc, scope.outs.len())?;
            *walked = walk.count;
            Ok(flat)
        }
        Err(trouble) => Err(refusal_of(alloc, &scope.titles, trouble)),
    }
}

/// A walk over a pattern's own statements, from the start.
fn walk_pattern(
    alloc: Global,
    scope: &PatternScope,
    body: &PatBody,
    count: u32,
) -> Result<Walk, Trouble>
    ensures { (names : Names) → IsNamed names scope.now → WalksOr names scope.now body.now count result }
{
    let top = Standing {
        body: BodyKind::Pattern,
        in_loop: false,
        in_shift: false,
        without_pass: false,
        loops: 0,
        calls: 0,
        running: &[],
    };
    let mut walk = Walk {
        args: Arguments::none(alloc),
        hashes: SignalSet::new(alloc),
        taken: SignalSet::new(alloc),
        count,
        out: FlatList::new(alloc),
        pairs: Vec::new(alloc),
        references: References::new(alloc),
    };
    match walk_list(alloc, scope, &top, body, &mut walk) {
        Ok(()) => Ok(walk),
        Err(trouble) => Err(trouble),
    }
}
