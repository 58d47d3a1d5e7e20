//! Variables and the choice among their values (IEEE 1450-1999, clause 19).

use crate::name::Quoted;
use tester_types::{Items, Text};

/// Which of a variable's values is taken.
#[derive(Clone, Copy, Debug, PartialEq, Eq)]
pub enum Choice {
    Min,
    Typ,
    Max,
    Meas,
}

/// The values that a variable's block gives.
#[derive(Debug, Drop)]
pub struct Choices {
    pub min: Option<Quoted>,
    pub typ: Option<Quoted>,
    pub max: Option<Quoted>,
    pub meas: Option<Quoted>,
}

/// What a variable stands for.
#[derive(Debug, Drop)]
pub enum VariableValue {
    /// One value, for each choice.
    Same(Quoted),
    Chosen(Choices),
}

/// A variable of a category.
#[derive(Debug, Drop)]
pub struct VariableDecl {
    pub name: Text,
    pub value: VariableValue,
    /// The statement's line, from 1.
    pub line: u32,
}

/// Variables in text order.
pub type VariableDeclList = Items<VariableDecl>;

/// `Category name { variables }`.
#[derive(Debug, Drop)]
pub struct Category {
    pub name: Text,
    pub variables: VariableDeclList,
}

/// Categories in text order.
pub type CategoryList = Items<Category>;

/// A Spec block; its name is empty where it has none.
#[derive(Debug, Drop)]
pub struct SpecBlock {
    pub name: Text,
    pub categories: CategoryList,
}

/// The Spec blocks in text order.
pub type SpecBlockList = Items<SpecBlock>;

/// `name Typ;` and the like in a Selector.
#[derive(Debug, Drop)]
pub struct Selection {
    pub name: Text,
    pub choice: Choice,
}

/// Selections in text order, no name twice.
pub type SelectionList = Items<Selection>;

/// A Selector block.
#[derive(Debug, Drop)]
pub struct Selector {
    pub name: Text,
    pub selections: SelectionList,
}

/// The Selector blocks in text order, no name twice.
pub type SelectorList = Items<Selector>;
