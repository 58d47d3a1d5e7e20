//! Which categories an executive names, and which values its Selector takes (IEEE 1450-1999, clauses 16 and 19).

ghost use Rattle.std.specs.Prelude.{◌≡◌, ◌||◌, ℕ, List, Some, None, if◌then◌else◌, find, option_map, map, IfOk, OnOk};
ghost use Rattle.std.specs.Option.{option_or, option_copied};
ghost use Rattle.std.specs.Str.{bytes_eq};
ghost use Rattle.stil_ast.specs.Data.Texts.{has_name};
ghost use Rattle.stil_ast.specs.Meaning.Variables.{choice_in, selector_of, text_of};
ghost use Rattle.text_bytes.specs.Texts.{is_among};
ghost use Rattle.indexmap.specs.IndexSet.{keys};
ghost use Rattle.time_expr.specs.Selected.{kept_choice, choice_of, named};

use indexmap::{IndexMap, IndexSet};
use std::alloc::{AllocError, Global};
use std::marker::Model;
use stil_ast::{Blocks, Choice, Named, Quoted, Selection, Selector, VariableValue};

/// The names of categories with an index of them.
#[derive(Drop)]
pub(crate) struct Categories<'a> {
    names: &'a [Named],
    index: IndexSet<&'a [u8]>,
}

impl<'a> Model for Categories<'a> {
    ghost use Rattle.std.specs.Prelude.{◌≡◌, ℕ, List, map};
    ghost use Rattle.stil_ast.specs.Data.Texts.{has_name};
    ghost use Rattle.stil_ast.specs.declared.name.Named.{Named};
    ghost use Rattle.text_bytes.specs.Texts.{is_among};
    ghost use Rattle.indexmap.specs.IndexSet.{keys};
    ghost use Rattle.time_expr.specs.Selected.{named};

    ghost Value = { List Named };

    ghost view = { λ c. c.names.now };

    ghost invariant = { λ c. (name : List ℕ) → is_among (keys c.index) name ≡ has_name (map named c.names.now) name };
}

impl<'a> Categories<'a> {
    /// These names.
    pub(crate) fn new(alloc: Global, names: &'a [Named]) -> Result<Categories<'a>, AllocError>
        ensures { IfOk result (λ made. made ≡ names.now) }
    {
        let index = index_of(alloc, names)?;
        Ok(Categories { names, index })
    }

    /// Whether a category has one of the names.
    pub(crate) fn has(&self, name: &[u8]) -> bool
        ensures { result ≡ has_name (map named self.now) name.now }
    {
        is_kept(&self.index, name)
    }
}

pub(crate) fn is_kept(index: &IndexSet<&[u8]>, name: &[u8]) -> bool
    ensures { result ≡ is_among (keys index.now) name.now }
{
    index.contains(name)
}

pub(crate) fn add_name<'a>(index: &mut IndexSet<&'a [u8]>, name: &'a [u8]) -> Result<(), AllocError>
    ensures { OnOk result ((other : List ℕ) →
        is_among (keys index.new) other ≡ (is_among (keys index.old) other || bytes_eq other name.now)) }
{
    index.insert(name)?;
    Ok(())
}

/// An index of names.
fn index_of<'a>(alloc: Global, names: &'a [Named]) -> Result<IndexSet<&'a [u8]>, AllocError>
    ensures { IfOk result (λ index.
        (name : List ℕ) → is_among (keys index) name ≡ has_name (map named names.now) name) }
{
    let mut index = IndexSet::new(alloc);
    for named in names {
        add_name(&mut index, named.name.as_slice())?;
    }
    Ok(index)
}

/// A Selector, or none, with an index of what it takes.
#[derive(Drop)]
pub(crate) struct Taken<'a> {
    selector: Option<&'a Selector>,
    choices: IndexMap<&'a [u8], Choice>,
}

impl<'a> Model for Taken<'a> {
    ghost use Rattle.std.specs.Prelude.{◌≡◌, ℕ, List, Option};
    ghost use Rattle.std.specs.Option.{option_copied};
    ghost use Rattle.stil_ast.specs.Meaning.Variables.{choice_in};
    ghost use Rattle.stil_ast.specs.declared.variable.Selector.{Selector};
    ghost use Rattle.time_expr.specs.Selected.{kept_choice, choice_of};

    ghost Value = { Option Selector };

    ghost view = { λ t. option_copied t.selector };

    ghost invariant = { λ t. (name : List ℕ)
        → choice_of (kept_choice t.choices name) ≡ choice_in (option_copied t.selector) name };
}

impl<'a> Taken<'a> {
    /// This Selector.
    pub(crate) fn new(
        alloc: Global,
        selector: Option<&'a Selector>,
    ) -> Result<Taken<'a>, AllocError>
        ensures { IfOk result (λ made. made ≡ option_copied selector.entry) }
    {
        let choices = choices_by(alloc, selector)?;
        Ok(Taken { selector, choices })
    }

    /// Which value is taken for a variable.
    pub(crate) fn choice(&self, name: &[u8]) -> Choice
        ensures { result ≡ choice_in self.now name.now }
    {
        match kept_choice(&self.choices, name) {
            Some(choice) => choice,
            None => Choice::Typ,
        }
    }
}

fn kept_choice(choices: &IndexMap<&[u8], Choice>, name: &[u8]) -> Option<Choice>
    ensures { result ≡ kept_choice choices.now name.now }
{
    choices.get(name).copied()
}

/// Puts what is taken for a name, unless the name has something.
fn add_choice<'a>(
    choices: &mut IndexMap<&'a [u8], Choice>,
    name: &'a [u8],
    choice: Choice,
) -> Result<(), AllocError>
    ensures { OnOk result ((other : List ℕ) →
        kept_choice choices.new other
        ≡ option_or (kept_choice choices.old other) (if bytes_eq name.now other then Some choice else None)) }
{
    if choices.contains_key(name) {
        return Ok(());
    }
    choices.insert(name, choice)?;
    Ok(())
}

/// What the first selection of each name takes.
fn choices_of<'a>(
    alloc: Global,
    selections: &'a [Selection],
) -> Result<IndexMap<&'a [u8], Choice>, AllocError>
    ensures { IfOk result (λ choices. (name : List ℕ) →
        kept_choice choices name ≡ option_map (λ s. s.choice) (find (λ s. bytes_eq s.name name) selections.now)) }
{
    let mut choices = IndexMap::new(alloc);
    for selection in selections {
        add_choice(&mut choices, selection.name.as_slice(), selection.choice)?;
    }
    Ok(choices)
}

/// What a Selector takes for each name.
fn choices_by<'a>(
    alloc: Global,
    selector: Option<&'a Selector>,
) -> Result<IndexMap<&'a [u8], Choice>, AllocError>
    ensures { IfOk result (λ choices. (name : List ℕ) →
        choice_of (kept_choice choices name) ≡ choice_in (option_copied selector.entry) name) }
{
    match selector {
        Some(selector) => choices_of(alloc, selector.selections.as_slice()),
        None => Ok(IndexMap::new(alloc)),
    }
}

/// The first Selector of a name.
fn selector_named<'a>(selectors: &'a [Selector], name: &[u8]) -> Option<&'a Selector>
    ensures { option_copied result ≡ find (λ s. bytes_eq s.name name.now) selectors.now }
{
    selectors
        .iter()
        .find(|selector| selector.name.as_slice() == name)
}

/// The Selector that an executive names.
pub(crate) fn selector_of<'a>(blocks: &'a Blocks, named: &Option<Named>) -> Option<&'a Selector>
    ensures { option_copied result ≡ selector_of blocks.now named.now }
{
    match named {
        Some(named) => selector_named(blocks.selectors.as_slice(), named.name.as_slice()),
        None => None,
    }
}

/// The text of a variable's chosen value.
pub(crate) fn text_of(choice: Choice, value: &VariableValue) -> Option<&Quoted>
    ensures { option_copied result ≡ text_of choice value.now }
{
    match value {
        VariableValue::Same(text) => Some(text),
        VariableValue::Chosen(choices) => match choice {
            Choice::Min => choices.min.as_ref(),
            Choice::Typ => choices.typ.as_ref(),
            Choice::Max => choices.max.as_ref(),
            Choice::Meas => choices.meas.as_ref(),
        },
    }
}
