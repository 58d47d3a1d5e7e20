//! The variables of an executive by their names, and texts that name them.

ghost use Rattle.std.specs.Prelude.{◌≡◌, ℕ, List, [], Some, Err, true, IfSome};
ghost use Rattle.answers.specs.Answers.{Blames, Finds};
ghost use Rattle.stil_ast.specs.Faults.Found.{fault_at};
ghost use Rattle.stil_ast.specs.Meaning.Variables.{picked_fault};
ghost use Rattle.expr_text.specs.Tree.{tree_of};
ghost use Rattle.expr_text.specs.Spelling.{Spells};
ghost use Rattle.time_expr.specs.TimesOf.{times_of};
ghost use Rattle.time_expr.specs.NamedValue.{value_by};
ghost use Rattle.time_expr.specs.Picked.{place_of, variable_of, variables_of};
ghost use Rattle.time_expr.specs.Choosing.{variable_named, variable_at, variable_in, Follows, Keeps, StopsAt, IsStopBy, Reaches};
ghost use Rattle.expr_text.specs.Value.{value_of};
ghost use Rattle.time_expr.specs.Names.{names_of, first_missing};

use crate::names::first_missing;
use crate::picked::{Picked, Spot};
use crate::texts::TimeTexts;
use crate::time::kind_of;
use expr_text::{Expr, ExprFault, Fraction, Vars, read_expr, value};
use indexmap::IndexMap;
use std::alloc::Global;
use std::marker::Model;
use stil_ast::{StilKind, StilRefusal, told};
use text_bytes::MOST_VARIABLES;

/// The refusal for a fault at a spot.
pub(crate) fn refused(alloc: Global, spot: Spot, kind: StilKind) -> StilRefusal
    ensures { Blames (Some (fault_at (place_of spot.entry) kind)) result }
{
    told(alloc, b"Spec", spot.spec, spot.line, kind)
}

/// The spot of a variable's own statement.
pub(crate) fn spot_of<'a>(variable: &Picked<'a>) -> Spot<'a>
    ensures { place_of result ≡ (variable_of variable.now).place }
{
    Spot {
        spec: variable.spec,
        line: variable.line,
    }
}

/// The variables that an executive picks, no two of a name, with an index of their names, and the texts that are kept.
#[derive(Drop)]
pub(crate) struct Variables<'a> {
    texts: &'a TimeTexts<'a>,
    picked: &'a [Picked<'a>],
    index: IndexMap<&'a [u8], &'a Picked<'a>>,
}

impl<'a> Model for Variables<'a> {
    ghost use Rattle.std.specs.Prelude.{List};
    ghost use Rattle.stil_ast.specs.Meaning.Variables.{Variable};
    ghost use Rattle.time_expr.specs.Picked.{variables_of};
    ghost use Rattle.time_expr.specs.Choosing.{Keeps};

    ghost Value = { List Variable };

    ghost view = { λ v. variables_of v.picked.now };

    ghost invariant = { λ v. Keeps (variables_of v.picked.now) v.index };
}

impl<'a> Variables<'a> {
    /// These variables, if they are not too many and no two of a name.
    pub(crate) fn new(
        alloc: Global,
        texts: &'a TimeTexts<'a>,
        picked: &'a [Picked<'a>],
    ) -> Result<Variables<'a>, StilRefusal>
        ensures { Finds (picked_fault [] (variables_of picked.now)) (λ made. made ≡ variables_of picked.now) result }
    {
        let index = index_of(alloc, picked)?;
        Ok(Variables {
            texts,
            picked,
            index,
        })
    }

    /// The variable of a name.
    pub(crate) fn get(&self, name: &[u8]) -> Option<&'a Picked<'a>>
        ensures { variable_at result ≡ variable_named self.now name.now }
    {
        self.index.get(name).copied()
    }

    /// The place of the variable of a name.
    pub(crate) fn place(&self, name: &[u8]) -> Option<usize> {
        self.index.get_index_of(name)
    }

    /// The expression that is kept for a text.
    pub(crate) fn kept(&self, text: &[u8]) -> Option<&Expr>
        ensures { IfSome result (λ expr. Spells text.now (tree_of expr.now) true) }
    {
        self.texts.kept(text)
    }

    /// The variables in text order.
    pub(crate) fn picked(&self) -> &'a [Picked<'a>]
        ensures { variables_of result.now ≡ self.now }
    {
        self.picked
    }
}

/// Checks that a variable may stand behind so many others, which an index keeps.
fn check_next<'a>(
    alloc: Global,
    index: &IndexMap<&'a [u8], &'a Picked<'a>>,
    place: usize,
    variable: &Picked<'a>,
) -> Result<(), StilRefusal>
    ensures { Follows place (variable_in index.now variable.now.name.now) (variable_of variable.now).place result }
{
    if place >= MOST_VARIABLES {
        return Err(refused(alloc, spot_of(variable), StilKind::OutOfRange));
    }
    if index.contains_key(variable.name) {
        return Err(refused(alloc, spot_of(variable), StilKind::Twice));
    }
    Ok(())
}

/// An index of variables, if they are not too many and no two of a name.
fn index_of<'a>(
    alloc: Global,
    picked: &'a [Picked<'a>],
) -> Result<IndexMap<&'a [u8], &'a Picked<'a>>, StilRefusal>
    ensures { Finds (picked_fault [] (variables_of picked.now)) (λ index. Keeps (variables_of picked.now) index)
        result }
{
    let mut index = IndexMap::new(alloc);
    for (place, variable) in picked.iter().enumerate() {
        check_next(alloc, &index, place, variable)?;
        index.insert(variable.name, variable)?;
    }
    Ok(index)
}

/// Why a text has no value under the values known so far.
#[derive(Clone, Copy)]
pub(crate) enum Stop<'a> {
    NoMemory,
    /// A fault of this kind is met in the text itself.
    Fault(StilKind),
    /// This variable, which has no value so far, is needed first.
    Needs(&'a Picked<'a>),
}

/// What stands in the way of an expression whose evaluation meets a name without a value.
fn stop_at_name<'a>(alloc: Global, variables: &Variables<'a>, vars: &Vars, expr: &Expr) -> Stop<'a>
    ensures { StopsAt variables.now (first_missing vars.now (names_of expr.now)) result }
{
    match first_missing(alloc, expr, vars) {
        Ok(Some(name)) => match variables.get(name) {
            Some(variable) => Stop::Needs(variable),
            None => Stop::Fault(StilKind::UnknownName),
        },
        Ok(None) => Stop::Fault(StilKind::UnknownName),
        Err(_) => Stop::NoMemory,
    }
}

/// What stands in the way of an expression with this fault.
fn stop_of<'a>(
    alloc: Global,
    variables: &Variables<'a>,
    vars: &Vars,
    expr: &Expr,
    fault: ExprFault,
) -> Stop<'a>
    ensures { value_of vars.now expr.now ≡ Err fault
        → Reaches variables.now vars.now (λ names. value_by names (tree_of expr.now)) (Err result) }
{
    match fault {
        ExprFault::UnknownName => stop_at_name(alloc, variables, vars, expr),
        _ => Stop::Fault(kind_of(fault)),
    }
}

/// The value of an expression by the values known so far, or what stands in its way.
fn expr_value<'a>(
    alloc: Global,
    variables: &Variables<'a>,
    vars: &Vars,
    expr: &Expr,
) -> Result<Fraction, Stop<'a>>
    ensures { Reaches variables.now vars.now (λ names. value_by names (tree_of expr.now)) result }
{
    match value(expr, vars) {
        Ok(value) => Ok(value),
        Err(fault) => Err(stop_of(alloc, variables, vars, expr, fault)),
    }
}

/// What stands in the way of a text that is refused.
fn stop_at<'a>(fault: ExprFault) -> Stop<'a>
    ensures { IsStopBy fault result }
{
    match fault {
        ExprFault::NoMemory => Stop::NoMemory,
        _ => Stop::Fault(kind_of(fault)),
    }
}

/// The value of a text that is read, by the values known so far, or what stands in its way.
fn read_value<'a>(
    alloc: Global,
    variables: &Variables<'a>,
    vars: &Vars,
    text: &[u8],
) -> Result<Fraction, Stop<'a>>
    ensures { Reaches variables.now vars.now (λ names. times_of.value names text.now) result }
{
    match read_expr(alloc, text) {
        Ok(expr) => expr_value(alloc, variables, vars, &expr),
        Err(fault) => Err(stop_at(fault)),
    }
}

/// The value of a text by the values known so far, or what stands in its way.
pub(crate) fn text_value<'a>(
    alloc: Global,
    variables: &Variables<'a>,
    vars: &Vars,
    text: &[u8],
) -> Result<Fraction, Stop<'a>>
    ensures { Reaches variables.now vars.now (λ names. times_of.value names text.now) result }
{
    match variables.kept(text) {
        Some(expr) => expr_value(alloc, variables, vars, expr),
        None => read_value(alloc, variables, vars, text),
    }
}
