//! The loop that reads statements by a form whose steps move a state on, up to the first fault in text order.

ghost use Rattle.std.specs.Prelude.{◌≡◌, Result, map};
ghost use Rattle.answers.specs.Reading.{stepping};
ghost use Rattle.stil_tree.specs.Trees.{Entry, entry_of};
ghost use Rattle.stil_form.specs.Reading.{Answers};
ghost use Rattle.stil_form.specs.Setting.{setting_of, unskipped};
ghost use Rattle.stil_form.specs.declared.fault.FormFault.{FormFault};

use crate::fault::FormFault;
use crate::setting::{Reader, skips};
use std::alloc::Global;
use stil_tree::Stmt;

/// A form of statements, each of which moves a state on: what stood before, in what number, what it declared.
pub trait StepForm {
    /// What the statements before say.
    type State: Drop;

    ghost step: { Self → Self.State → Entry → Result Self.State FormFault };

    /// The state behind the statement, or its fault.
    fn take(
        &self,
        alloc: Global,
        before: Self::State,
        stmt: &Stmt,
    ) -> Result<Self::State, FormFault>
        ensures { Answers result (step self.now before (entry_of stmt.now)) };
}

/// Only tests call it: the state behind statements of a form, in text order, or the first fault.
pub fn read_steps<F: StepForm>(
    alloc: Global,
    form: &F,
    start: F::State,
    stmts: &[Stmt],
) -> Result<F::State, FormFault>
    ensures { Answers result (stepping (F.step form.now) start (map entry_of stmts.now)) }
{
    let mut state = start;
    for stmt in stmts {
        state = form.take(alloc, state, stmt)?;
    }
    Ok(state)
}

/// The same as `read_steps`, but for statements that begin with one of the words, which are skipped.
pub fn read_unskipped_steps<F: StepForm>(
    alloc: Global,
    form: &F,
    reader: &Reader,
    start: F::State,
    stmts: &[Stmt],
) -> Result<F::State, FormFault>
    ensures { Answers result
        (stepping (F.step form.now) start (unskipped (setting_of reader.now) (map entry_of stmts.now))) }
{
    let mut state = start;
    for stmt in stmts {
        if skips(reader, stmt) {
            continue;
        }
        state = form.take(alloc, state, stmt)?;
    }
    Ok(state)
}
