//! Spec blocks (IEEE 1450-1999, clause 19).

ghost use Rattle.std.specs.Prelude.{◌≡◌, is_some};
ghost use Rattle.stil_ast.specs.Meaning.Variables.{chosen_of};
ghost use Rattle.stil_tree.specs.Trees.{entry_of};
ghost use Rattle.stil_form.specs.Lexeme.{lexemes};
ghost use Rattle.stil_form.specs.Reading.{Answers, AnswersBy};
ghost use Rattle.stil_form.specs.Setting.{setting_of, inner_of};
ghost use Rattle.block_forms.specs.Heads.{Says};
ghost use Rattle.timing_blocks.specs.Variables as variables;
ghost use Rattle.timing_blocks.specs.Working as working;

use block_forms::{
    equal_text_at, is_first, keyword_in, named_block, only_name, only_text, quoted_at, titled_block,
};
use std::alloc::Global;
use stil_ast::{Category, Choice, Choices, Quoted, SpecBlock, VariableDecl, VariableValue};
use stil_form::{
    Form, FormFault, FormKind, Reader, Source, StepForm, first_of, first_part, has_block, head_at,
    inner_of, line_at, read_unskipped, read_unskipped_steps,
};
use stil_tree::Stmt;
use tester_types::Items;

/// The keywords that name choices.
pub(crate) const CHOICES: [(&[u8], Choice); 4] = [
    (b"Min", Choice::Min),
    (b"Typ", Choice::Typ),
    (b"Max", Choice::Max),
    (b"Meas", Choice::Meas),
];

/// What `Min 'text'` and the like says, which has no block.
fn choice_said<'a>(has_block: bool, head: Source<'a>) -> Result<(Choice, &'a [u8]), FormKind>
    ensures { Says (λ said. (said.0, said.1.now)) result (variables.choice_said has_block (lexemes head.entry)) }
{
    let Some((one, rest)) = first_part(head) else {
        return Err(FormKind::LeftOut);
    };
    let Some(choice) = keyword_in(&CHOICES, &one) else {
        return Err(FormKind::LeftOut);
    };
    if has_block {
        return Err(FormKind::Shape);
    }
    match only_text(rest) {
        Ok(text) => Ok((choice, text)),
        Err(kind) => Err(kind),
    }
}

/// Whether a text is given for a choice.
fn is_given(choice: Choice, choices: &Choices) -> bool
    ensures { result ≡ is_some (chosen_of choice choices.now) }
{
    match choice {
        Choice::Min => choices.min.is_some(),
        Choice::Typ => choices.typ.is_some(),
        Choice::Max => choices.max.is_some(),
        Choice::Meas => choices.meas.is_some(),
    }
}

/// The choices with one text more.
fn given(choice: Choice, text: Quoted, choices: Choices) -> Choices
    ensures { result ≡ working.given choice text choices }
{
    let Choices {
        min,
        typ,
        max,
        meas,
    } = choices;
    let text = Some(text);
    match choice {
        Choice::Min => Choices {
            min: text,
            typ,
            max,
            meas,
        },
        Choice::Typ => Choices {
            min,
            typ: text,
            max,
            meas,
        },
        Choice::Max => Choices {
            min,
            typ,
            max: text,
            meas,
        },
        Choice::Meas => Choices {
            min,
            typ,
            max,
            meas: text,
        },
    }
}

/// Statements of a variable's block.
#[derive(Clone, Copy)]
struct ChoiceForm<'k, 'a> {
    reader: Reader<'k, 'a>,
}

impl StepForm for ChoiceForm<'_, '_> {
    type State = Choices;

    ghost step = { λ form before e. working.choice_step (setting_of form.reader) before e };

    fn take(&self, alloc: Global, before: Choices, stmt: &Stmt) -> Result<Choices, FormFault> {
        let head = head_at(self.reader.source, stmt);
        let (choice, text) = choice_said(has_block(stmt), head).map_err(|kind| FormFault::Refused(
            kind,
            first_of(stmt),
        ))?;
        if is_given(choice, &before) {
            return Err(FormFault::Refused(FormKind::Twice, first_of(stmt)));
        }
        let text = quoted_at(alloc, &self.reader, first_of(stmt) as usize + 1, text)?;
        Ok(given(choice, text, before))
    }
}

/// The texts of a variable's block.
fn read_choices(alloc: Global, reader: &Reader, stmt: &Stmt) -> Result<Choices, FormFault>
    ensures { Answers result
        (variables.choices_of (setting_of reader.now) (inner_of (entry_of stmt.now).body)) }
{
    let form = ChoiceForm { reader: *reader };
    let start = Choices {
        min: None,
        typ: None,
        max: None,
        meas: None,
    };
    read_unskipped_steps(alloc, &form, reader, start, inner_of(stmt))
}

/// A variable with a block.
fn read_chosen(alloc: Global, reader: &Reader, stmt: &Stmt) -> Result<VariableDecl, FormFault>
    ensures { Answers result (variables.chosen_variable (setting_of reader.now) (entry_of stmt.now)) }
{
    let called = only_name(head_at(reader.source, stmt)).map_err(|kind| FormFault::Refused(
        kind,
        first_of(stmt),
    ))?;
    let choices = read_choices(alloc, reader, stmt)?;
    Ok(VariableDecl {
        name: Items::from_slice(alloc, called)?,
        value: VariableValue::Chosen(choices),
        line: line_at(reader.source.tokens, first_of(stmt) as usize),
    })
}

/// A variable with one text.
fn read_same(alloc: Global, reader: &Reader, stmt: &Stmt) -> Result<VariableDecl, FormFault>
    ensures { Answers result (variables.same_variable (setting_of reader.now) (entry_of stmt.now)) }
{
    let (name, text) = equal_text_at(reader, stmt)?;
    let first = first_of(stmt) as usize;
    Ok(VariableDecl {
        name: Items::from_slice(alloc, name)?,
        value: VariableValue::Same(quoted_at(alloc, reader, first + 2, text)?),
        line: line_at(reader.source.tokens, first),
    })
}

/// Statements of categories.
#[derive(Clone, Copy)]
struct VariableForm<'k, 'a> {
    reader: Reader<'k, 'a>,
}

impl Form for VariableForm<'_, '_> {
    type Data = VariableDecl;

    ghost judge = { λ form before e. variables.judge_variable (setting_of form.reader) before e };

    fn judge_one(
        &self,
        alloc: Global,
        before: &[VariableDecl],
        stmt: &Stmt,
    ) -> Result<VariableDecl, FormFault> {
        let _ = before;
        if has_block(stmt) {
            read_chosen(alloc, &self.reader, stmt)
        } else {
            read_same(alloc, &self.reader, stmt)
        }
    }
}

/// The variables of a category's statements.
fn read_variables(
    alloc: Global,
    reader: &Reader,
    stmt: &Stmt,
) -> Result<Vec<VariableDecl>, FormFault>
    ensures { AnswersBy (λ read. read.items) result
        (variables.variables_of (setting_of reader.now) (inner_of (entry_of stmt.now).body)) }
{
    let form = VariableForm { reader: *reader };
    read_unskipped(alloc, &form, reader, inner_of(stmt))
}

/// Statements of Spec blocks.
#[derive(Clone, Copy)]
struct CategoryForm<'k, 'a> {
    reader: Reader<'k, 'a>,
}

impl Form for CategoryForm<'_, '_> {
    type Data = Category;

    ghost judge = { λ form before e. variables.judge_category (setting_of form.reader) before e };

    fn judge_one(
        &self,
        alloc: Global,
        before: &[Category],
        stmt: &Stmt,
    ) -> Result<Category, FormFault> {
        let _ = before;
        if !is_first(b"Category", head_at(self.reader.source, stmt)) {
            return Err(FormFault::Refused(FormKind::LeftOut, first_of(stmt)));
        }
        let called = named_block(&self.reader, stmt)?;
        let variables = read_variables(alloc, &self.reader, stmt)?;
        Ok(Category {
            name: Items::from_slice(alloc, called)?,
            variables: Items::from_vec(variables),
        })
    }
}

/// The categories of a block's statements.
fn read_categories(alloc: Global, reader: &Reader, stmt: &Stmt) -> Result<Vec<Category>, FormFault>
    ensures { AnswersBy (λ read. read.items) result
        (variables.categories_of (setting_of reader.now) (inner_of (entry_of stmt.now).body)) }
{
    let form = CategoryForm { reader: *reader };
    read_unskipped(alloc, &form, reader, inner_of(stmt))
}

/// A Spec block.
pub fn read_spec_block(alloc: Global, reader: &Reader, stmt: &Stmt) -> Result<SpecBlock, FormFault>
    ensures { Answers result (variables.spec_block (setting_of reader.now) (entry_of stmt.now)) }
{
    let title = titled_block(reader, stmt)?;
    let categories = read_categories(alloc, reader, stmt)?;
    Ok(SpecBlock {
        name: Items::from_slice(alloc, title)?,
        categories: Items::from_vec(categories),
    })
}
