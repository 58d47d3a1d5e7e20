//! Statements with texts in single quotes, and the blocks of attributes behind them.

ghost use Rattle.std.specs.Prelude.{◌≡◌, IfOk};
ghost use Rattle.stil_tree.specs.Trees.{entry_of};
ghost use Rattle.stil_form.specs.Lexeme.{lexemes};
ghost use Rattle.stil_form.specs.Reading.{Answers, AnswersBy};
ghost use Rattle.stil_form.specs.Setting.{setting_of, inner_of};
ghost use Rattle.block_forms.specs.Heads.{Says};
ghost use Rattle.block_forms.specs.Quotes as quotes;

use crate::head::{is_first, only_text};
use std::alloc::{AllocError, Global};
use stil_ast::Quoted;
use stil_form::{
    FormFault, FormKind, Part, Reader, SignKind, Source, StepForm, first_of, first_part, head_at,
    inner_of, line_at, name_of, read_unskipped_steps,
};
use stil_tree::Stmt;
use tester_types::Items;

/// The name and the text of `name = 'text'`.
fn equal_text<'a>(head: Source<'a>) -> Result<(&'a [u8], &'a [u8]), FormKind>
    ensures { Says (λ said. (said.0.now, said.1.now)) result (quotes.equal_text (lexemes head.entry)) }
{
    let Some((one, rest)) = first_part(head) else {
        return Err(FormKind::Shape);
    };
    let Some(called) = name_of(&one) else {
        return Err(FormKind::Shape);
    };
    let Some((Part::Sign(SignKind::Equals), behind)) = first_part(rest) else {
        return Err(FormKind::Shape);
    };
    match only_text(behind) {
        Ok(bytes) => Ok((called, bytes)),
        Err(kind) => Err(kind),
    }
}

/// The name and the text of a statement `name = 'text'`.
pub fn equal_text_at<'a>(
    reader: &Reader<'_, 'a>,
    stmt: &Stmt,
) -> Result<(&'a [u8], &'a [u8]), FormFault>
    ensures { AnswersBy (λ said. (said.0.now, said.1.now)) result
        (quotes.equal_text_at (setting_of reader.now) (entry_of stmt.now)) }
{
    match equal_text(head_at(reader.source, stmt)) {
        Ok(said) => Ok(said),
        Err(kind) => Err(FormFault::Refused(kind, first_of(stmt))),
    }
}

/// A text that is the token behind so many others of a statement's head, on that token's line.
pub fn quoted_at(
    alloc: Global,
    reader: &Reader,
    index: usize,
    bytes: &[u8],
) -> Result<Quoted, AllocError>
    ensures { IfOk result (λ quoted. quoted ≡ quotes.quoted_at (setting_of reader.now) index bytes.now) }
{
    Ok(Quoted {
        text: Items::from_slice(alloc, bytes)?,
        line: line_at(reader.source.tokens, index),
    })
}

/// Statements of a block of attributes.
#[derive(Clone, Copy)]
struct AttributeForm<'k, 'a> {
    reader: Reader<'k, 'a>,
}

impl StepForm for AttributeForm<'_, '_> {
    type State = ();

    ghost step = { λ form before e. quotes.attribute_step (setting_of form.reader) before e };

    fn take(&self, alloc: Global, before: (), stmt: &Stmt) -> Result<(), FormFault> {
        let _ = (alloc, before);
        if is_first(b"Termination", head_at(self.reader.source, stmt)) {
            return Err(FormFault::Refused(FormKind::LeftOut, first_of(stmt)));
        }
        Ok(())
    }
}

/// Skips the attributes of a statement's block; a Termination is left out.
pub fn skip_attributes(alloc: Global, reader: &Reader, stmt: &Stmt) -> Result<(), FormFault>
    ensures { Answers result (quotes.attributes (setting_of reader.now) (inner_of (entry_of stmt.now).body)) }
{
    let form = AttributeForm { reader: *reader };
    read_unskipped_steps(alloc, &form, reader, (), inner_of(stmt))
}
