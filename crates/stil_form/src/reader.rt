//! The loop that reads statements by any form, up to the first fault in text order.

ghost use Rattle.std.specs.Prelude.{◌≡◌, List, [], Result, map};
ghost use Rattle.stil_tree.specs.Trees.{Entry, entry_of};
ghost use Rattle.answers.specs.Reading.{reading};
ghost use Rattle.stil_form.specs.Reading.{Answers, AnswersBy};
ghost use Rattle.stil_form.specs.Setting.{setting_of, unskipped};
ghost use Rattle.stil_form.specs.declared.fault.FormFault.{FormFault};

use crate::fault::FormFault;
use crate::setting::{Reader, skips};
use std::alloc::Global;
use stil_tree::Stmt;

/// A form of statements, each judged by what was read of those before it.
pub trait Form {
    /// What a statement says.
    type Data: Drop;

    ghost judge: { Self → List Self.Data → Entry → Result Self.Data FormFault };

    /// What the statement says, or its fault.
    fn judge_one(
        &self,
        alloc: Global,
        before: &[Self::Data],
        stmt: &Stmt,
    ) -> Result<Self::Data, FormFault>
        ensures { Answers result (judge self.now before.now (entry_of stmt.now)) };
}

/// Only tests call it: what statements of a form say, in text order, or the first fault.
pub fn read_each<F: Form>(
    alloc: Global,
    form: &F,
    stmts: &[Stmt],
) -> Result<Vec<F::Data>, FormFault>
    ensures { AnswersBy (λ read. read.items) result (reading (F.judge form.now) [] (map entry_of stmts.now)) }
{
    let mut read = Vec::with_capacity(alloc, stmts.len())?;
    for stmt in stmts {
        let data = form.judge_one(alloc, read.as_slice(), stmt)?;
        read.push(data)?;
    }
    Ok(read)
}

/// The same as `read_each`, but for statements that begin with one of the words, which are skipped.
pub fn read_unskipped<F: Form>(
    alloc: Global,
    form: &F,
    reader: &Reader,
    stmts: &[Stmt],
) -> Result<Vec<F::Data>, FormFault>
    ensures { AnswersBy (λ read. read.items) result
        (reading (F.judge form.now) [] (unskipped (setting_of reader.now) (map entry_of stmts.now))) }
{
    let mut read = Vec::new(alloc);
    for stmt in stmts {
        if skips(reader, stmt) {
            continue;
        }
        let data = form.judge_one(alloc, read.as_slice(), stmt)?;
        read.push(data)?;
    }
    Ok(read)
}
