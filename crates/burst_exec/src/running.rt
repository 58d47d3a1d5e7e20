//! The patterns of an executive in running order, up to one with a Stop.

ghost use Rattle.std.specs.Prelude.{◌≡◌, ◌∷◌, [], List, OnOk};
ghost use Rattle.stil_ast.specs.Meaning.Bursts.{Played};
ghost use Rattle.stil_ast.specs.declared.executive.ExecDecl.{ExecDecl};
ghost use Rattle.macro_expand.specs.Actions.{is_stop};
ghost use Rattle.pattern_order.specs.Held.{played_by, played_in};
ghost use Rattle.burst_exec.specs.Carried.{IsCarried, HasExpanded, IsRunning, HasRun, RunsNext};
ghost use Rattle.answers.specs.Answers.{Finds};
ghost use Rattle.burst_exec.specs.Held.{trees_in, AreEven};
ghost use Rattle.burst_exec.specs.Patterns.{IsStanding, pattern_fault, played_fault, has_stop};
ghost use Rattle.burst_exec.specs.declared.progress.Progress.{Progress};

use crate::progress::Progress;
use crate::scoping::{Standing, expand_with, titles_in};
use crate::trees::Draft;
use flat_tree::FlatList;
use pattern_order::PlayedPattern;
use std::alloc::Global;
use stil_ast::{PatAction, PatBody, Step, StilRefusal};

/// Whether a statement ends an executive.
fn is_stop(action: &PatAction) -> bool
    ensures { result ≡ is_stop action.now }
{
    match action {
        PatAction::Step(step) => matches!(step, Step::Stop),
        PatAction::Loop(_, _) => false,
        PatAction::Shift(_) => false,
    }
}

/// Whether a Stop stands among these statements.
fn has_stop(body: &PatBody) -> bool
    ensures { result ≡ has_stop body.now }
{
    for stmt in body.as_slice() {
        if is_stop(&stmt.action) {
            return true;
        }
    }
    false
}

/// The flat tree of a pattern, behind others.
fn expand_next<'a>(
    alloc: Global,
    standing: &Standing<'_, 'a>,
    played: &PlayedPattern<'a>,
    progress: &mut Progress<'a>,
) -> Result<FlatList, StilRefusal>
    requires { IsCarried standing.now.blocks.now progress.old }
    ensures carried { OnOk result (IsCarried standing.now.blocks.now progress.new) }
    ensures expanded { (e : ExecDecl) → IsStanding e standing.now
        → Finds (pattern_fault standing.now.blocks.now e (played_by played.now) progress.old.walked)
        (HasExpanded standing.now.blocks.now e (played_by played.now) progress.old progress.new) result }
{
    let blocks = standing.blocks;
    let macros = progress
        .macros
        .join(alloc, blocks.macros.as_slice(), played.macros)?;
    let procedures = progress
        .procedures
        .join(alloc, blocks.procedures.as_slice(), played.procedures)?;
    expand_with(
        alloc,
        standing,
        progress.macros.get(macros),
        progress.procedures.get(procedures),
        played,
        &mut progress.walked,
    )
}

/// Runs a pattern behind others; answers whether it ends the executive.
fn run_next<'a>(
    alloc: Global,
    standing: &Standing<'_, 'a>,
    played: &PlayedPattern<'a>,
    progress: &mut Progress<'a>,
    draft: &mut Draft<'a>,
) -> Result<bool, StilRefusal>
    requires carried { IsCarried standing.now.blocks.now progress.old }
    requires even { AreEven draft.old.titles.items draft.old.flats.items }
    ensures carried { OnOk result (IsCarried standing.now.blocks.now progress.new) }
    ensures even { OnOk result (AreEven draft.new.titles.items draft.new.flats.items) }
    ensures runs { (e : ExecDecl) (patterns : List Played) (before : Progress) (rest : List Played)
        → IsStanding e standing.now
        → IsRunning standing.now.blocks.now e patterns before (played_by played.now ∷ rest) progress.old draft.old
        → RunsNext standing.now.blocks.now e patterns before rest progress.new draft.new result }
{
    let flat = match expand_next(alloc, standing, played, progress) {
        Ok(flat) => flat,
        Err(refusal) => return Err(refusal),
    };
    draft.put(flat, titles_in(played))?;
    Ok(has_stop(&played.pattern.body))
}

/// Runs patterns in running order, up to one with a Stop.
pub(crate) fn run_all<'a>(
    alloc: Global,
    standing: &Standing<'_, 'a>,
    order: &[PlayedPattern<'a>],
    progress: &mut Progress<'a>,
    draft: &mut Draft<'a>,
) -> Result<(), StilRefusal>
    requires carried { IsCarried standing.now.blocks.now progress.old }
    requires even { AreEven draft.old.titles.items draft.old.flats.items }
    requires none { trees_in draft.old.titles.items draft.old.flats.items ≡ [] }
    ensures carried { OnOk result (IsCarried standing.now.blocks.now progress.new) }
    ensures even { OnOk result (AreEven draft.new.titles.items draft.new.flats.items) }
    ensures runs { (e : ExecDecl) → IsStanding e standing.now
        → Finds (played_fault standing.now.blocks.now e (played_in order.now) progress.old.walked)
        (λ _. HasRun standing.now.blocks.now e (played_in order.now) progress.old progress.new draft.new) result }
{
    for played in order {
        match run_next(alloc, standing, played, progress, draft) {
            Ok(true) => return Ok(()),
            Ok(false) => {}
            Err(refusal) => return Err(refusal),
        }
    }
    Ok(())
}
