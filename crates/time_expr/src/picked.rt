//! The variables of the categories that an executive names (IEEE 1450-1999, clauses 16 and 19).

ghost use Rattle.std.specs.Prelude.{◌≡◌, ◌++◌, [], map, flat_map, IfOk, OnOk};
ghost use Rattle.stil_ast.specs.Meaning.Variables.{picked_in, picked_category, picked, selector_of};
ghost use Rattle.time_expr.specs.Selected.{named};
ghost use Rattle.time_expr.specs.Picked.{variable_of, variables_of, picked_spec};

use crate::selected::{Categories, Taken, selector_of, text_of};
use std::alloc::{AllocError, Global};
use stil_ast::{Blocks, Category, ExecDecl, Quoted, SpecBlock, VariableDecl};

/// A variable of a picked category.
#[derive(Clone, Copy)]
pub(crate) struct Picked<'a> {
    pub(crate) name: &'a [u8],
    /// The text of the chosen value, if it has one.
    pub(crate) text: Option<&'a Quoted>,
    /// The name of the Spec block in which it stands.
    pub(crate) spec: &'a [u8],
    pub(crate) line: u32,
}

/// Where something is met: a line of a Spec block of this name.
#[derive(Clone, Copy)]
pub(crate) struct Spot<'a> {
    pub(crate) spec: &'a [u8],
    pub(crate) line: u32,
}

/// A variable with its chosen value.
fn picked_in<'a>(taken: &Taken, spec: &'a [u8], variable: &'a VariableDecl) -> Picked<'a>
    ensures { variable_of result ≡ picked_in taken.now spec.now variable.now }
{
    let name = variable.name.as_slice();
    Picked {
        name,
        text: text_of(taken.choice(name), &variable.value),
        spec,
        line: variable.line,
    }
}

/// Adds the variables of a category.
fn add_variables<'a>(
    picked: &mut Vec<Picked<'a>>,
    taken: &Taken,
    spec: &'a [u8],
    variables: &'a [VariableDecl],
) -> Result<(), AllocError>
    ensures { OnOk result (variables_of picked.new.items
        ≡ variables_of picked.old.items ++ map (picked_in taken.now spec.now) variables.now) }
{
    for variable in variables {
        picked.push(picked_in(taken, spec, variable))?;
    }
    Ok(())
}

/// Adds the variables of a category, where an executive names it.
fn add_category<'a>(
    picked: &mut Vec<Picked<'a>>,
    categories: &Categories,
    taken: &Taken,
    spec: &'a [u8],
    category: &'a Category,
) -> Result<(), AllocError>
    ensures { OnOk result (variables_of picked.new.items
        ≡ variables_of picked.old.items ++ picked_category taken.now (map named categories.now) spec.now category.now) }
{
    if categories.has(category.name.as_slice()) {
        add_variables(picked, taken, spec, category.variables.as_slice())
    } else {
        Ok(())
    }
}

/// Adds the variables of the categories of a Spec block.
fn add_spec<'a>(
    picked: &mut Vec<Picked<'a>>,
    categories: &Categories,
    taken: &Taken,
    spec: &'a SpecBlock,
) -> Result<(), AllocError>
    ensures { OnOk result (variables_of picked.new.items
        ≡ variables_of picked.old.items ++ picked_spec taken.now (map named categories.now) spec.now) }
{
    for category in spec.categories.as_slice() {
        add_category(picked, categories, taken, spec.name.as_slice(), category)?;
    }
    Ok(())
}

/// The variables of these categories in text order.
fn picked_in_specs<'a>(
    alloc: Global,
    categories: &Categories,
    taken: &Taken,
    specs: &'a [SpecBlock],
) -> Result<Vec<Picked<'a>>, AllocError>
    ensures { IfOk result (λ found. variables_of found.items
        ≡ flat_map (picked_spec taken.now (map named categories.now)) specs.now) }
{
    let mut picked = Vec::new(alloc);
    for spec in specs {
        add_spec(&mut picked, categories, taken, spec)?;
    }
    Ok(picked)
}

/// The variables of all categories that an executive names, in text order.
pub(crate) fn picked_of<'a>(
    alloc: Global,
    blocks: &'a Blocks,
    exec: &'a ExecDecl,
) -> Result<Vec<Picked<'a>>, AllocError>
    ensures { IfOk result (λ found. variables_of found.items ≡ picked blocks.now exec.now) }
{
    let categories = Categories::new(alloc, exec.categories.as_slice())?;
    let taken = Taken::new(alloc, selector_of(blocks, &exec.selector))?;
    picked_in_specs(alloc, &categories, &taken, blocks.specs.as_slice())
}
