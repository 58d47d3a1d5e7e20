//! Selector blocks (IEEE 1450-1999, clause 19).

ghost use Rattle.std.specs.Prelude.{◌≡◌, List, [], ◌∷◌, ◌++◌, IfOk};
ghost use Rattle.stil_tree.specs.Trees.{entry_of};
ghost use Rattle.stil_form.specs.Lexeme.{lexemes};
ghost use Rattle.stil_form.specs.Reading.{Answers};
ghost use Rattle.stil_form.specs.Setting.{setting_of, inner_of};
ghost use Rattle.block_forms.specs.Heads.{Says};
ghost use Rattle.timing_blocks.specs.Selectors as selectors;
ghost use Rattle.timing_blocks.specs.Selectors.{selection_of, is_selected};
ghost use Rattle.timing_blocks.specs.Working as working;

use crate::variables::CHOICES;
use block_forms::{Declared, named_block, only_keyword};
use std::alloc::{AllocError, Global};
use std::marker::Model;
use stil_ast::{Choice, Selection, SelectionList, Selector};
use stil_form::{
    FormFault, FormKind, Reader, Source, StepForm, first_of, first_part, has_block, head_at,
    inner_of, name_of, read_unskipped_steps,
};
use stil_tree::Stmt;
use tester_types::Items;

/// A name and its choice, as a statement says them.
#[derive(Clone, Copy, Debug)]
pub(crate) struct Selected<'a> {
    name: &'a [u8],
    choice: Choice,
}

/// What `name Min` and the like says.
fn selection_said<'a>(head: Source<'a>) -> Result<Selected<'a>, FormKind>
    ensures { Says selection_of result (selectors.selection_said (lexemes head.entry)) }
{
    let Some((one, rest)) = first_part(head) else {
        return Err(FormKind::Shape);
    };
    let Some(name) = name_of(&one) else {
        return Err(FormKind::Shape);
    };
    match only_keyword(&CHOICES, rest) {
        Some(choice) => Ok(Selected { name, choice }),
        None => Err(FormKind::Shape),
    }
}

/// Selections in text order, whose names are looked up by hash.
#[derive(Drop)]
pub(crate) struct Selections<'a> {
    read: Vec<Selection>,
    declared: Declared<'a>,
}

impl<'a> Model for Selections<'a> {
    ghost use Rattle.std.specs.Prelude.{◌≡◌, List};
    ghost use Rattle.stil_ast.specs.declared.variable.Selection.{Selection};
    ghost use Rattle.timing_blocks.specs.Selectors.{names_in};

    ghost Value = { List Selection };

    ghost view = { λ s. s.read.items };

    ghost invariant = { λ s. s.declared ≡ names_in s.read.items };
}

impl<'a> Selections<'a> {
    /// No selections.
    fn new(alloc: Global) -> Selections<'a>
        ensures { result ≡ [] }
    {
        Selections {
            read: Vec::new(alloc),
            declared: Declared::new(alloc),
        }
    }

    /// Whether a name is among them.
    fn has(&self, called: &'a [u8]) -> bool
        ensures { result ≡ is_selected self.now called.now }
    {
        self.declared.has(b"", called)
    }

    /// One more selection.
    fn with(self, alloc: Global, said: Selected<'a>) -> Result<Selections<'a>, AllocError>
        ensures { IfOk result (λ read. read ≡ self.entry ++ selection_of said.entry ∷ []) }
    {
        let Selections { mut read, declared } = self;
        let declared = declared.with(b"", said.name)?;
        read.push(Selection {
            name: Items::from_slice(alloc, said.name)?,
            choice: said.choice,
        })?;
        Ok(Selections { read, declared })
    }

    /// The list of them.
    fn into_list(self) -> SelectionList
        ensures { result ≡ self.entry }
    {
        let Selections { read, declared } = self;
        let _ = declared;
        Items::from_vec(read)
    }
}

/// Statements of Selector blocks.
#[derive(Clone, Copy)]
struct SelectionForm<'k, 'a> {
    reader: Reader<'k, 'a>,
}

impl<'k, 'a> StepForm for SelectionForm<'k, 'a> {
    type State = Selections<'a>;

    ghost step = { λ form before e. working.selection_step (setting_of form.reader) before e };

    fn take(
        &self,
        alloc: Global,
        before: Selections<'a>,
        stmt: &Stmt,
    ) -> Result<Selections<'a>, FormFault> {
        if has_block(stmt) {
            return Err(FormFault::Refused(FormKind::Shape, first_of(stmt)));
        }
        let said = selection_said(head_at(self.reader.source, stmt)).map_err(
            |kind| FormFault::Refused(kind, first_of(stmt)),
        )?;
        if before.has(said.name) {
            return Err(FormFault::Refused(FormKind::Twice, first_of(stmt)));
        }
        let read = before.with(alloc, said)?;
        Ok(read)
    }
}

/// The selections of a block's statements.
fn read_selections(alloc: Global, reader: &Reader, stmt: &Stmt) -> Result<SelectionList, FormFault>
    ensures { Answers result
        (selectors.selections_of (setting_of reader.now) (inner_of (entry_of stmt.now).body)) }
{
    let form = SelectionForm { reader: *reader };
    let read = read_unskipped_steps(alloc, &form, reader, Selections::new(alloc), inner_of(stmt))?;
    Ok(read.into_list())
}

/// A Selector block.
pub fn read_selector_block(
    alloc: Global,
    reader: &Reader,
    stmt: &Stmt,
) -> Result<Selector, FormFault>
    ensures { Answers result (selectors.selector_block (setting_of reader.now) (entry_of stmt.now)) }
{
    let called = named_block(reader, stmt)?;
    let selections = read_selections(alloc, reader, stmt)?;
    Ok(Selector {
        name: Items::from_slice(alloc, called)?,
        selections,
    })
}
