//! Expressions as trees, and their exact values.

ghost use Rattle.std.specs.Prelude.{◌≡◌};
ghost use Rattle.expr_text.specs.Value.{value_of, chain_of, extreme_of, applied_of, better_of, links_of, values_of};

use crate::fault::ExprFault;
use crate::fraction::Fraction;
use crate::unit::Unit;
use crate::vars::Vars;
use tester_types::Text;

/// How a chain goes on with its next operand.
#[derive(Clone, Copy, PartialEq, Eq, Debug)]
pub enum Operator {
    Plus,
    Minus,
    Times,
    Over,
}

/// Which of several values is taken.
#[derive(Clone, Copy, PartialEq, Eq, Debug)]
pub enum Bound {
    Least,
    Greatest,
}

/// An expression. Chains and bounds nest as the parentheses do, however long they are.
#[derive(Drop)]
pub enum Expr {
    /// A number in lowest terms, and its unit.
    Number(Fraction, Unit),
    /// A name, which stands for a value.
    Name(Text),
    /// An operand, and those behind it with their operators, taken from the left.
    Chain(Box<Expr>, Vec<(Operator, Expr)>),
    /// The least or the greatest of several operands.
    Extreme(Bound, Box<Expr>, Vec<Expr>),
}

/// The exact value of an expression, or the first fault that the evaluation meets. Takes no memory.
#[cycle(value)]
pub fn value(expr: &Expr, vars: &Vars) -> Result<Fraction, ExprFault>
    ensures { result ≡ value_of vars.now expr.now }
{
    match expr {
        Expr::Number(number, unit) => number.times(&unit.femtoseconds()),
        Expr::Name(name) => vars.get(name.as_slice()).ok_or(ExprFault::UnknownName),
        Expr::Chain(first, rest) => chain_value(value(first, vars)?, rest, vars),
        Expr::Extreme(bound, first, rest) => extreme_value(*bound, value(first, vars)?, rest, vars),
    }
}

/// The value of a chain that goes on from this value.
#[cycle(value)]
fn chain_value(
    first: Fraction,
    rest: &[(Operator, Expr)],
    vars: &Vars,
) -> Result<Fraction, ExprFault>
    ensures { result ≡ chain_of first (links_of vars.now rest.now) }
{
    let mut total = first;
    for link in rest {
        let next = value(&link.1, vars)?;
        total = applied(link.0, &total, &next)?;
    }
    Ok(total)
}

/// The least or greatest of this value and those of the operands, all of which are evaluated first.
#[cycle(value)]
fn extreme_value(
    bound: Bound,
    first: Fraction,
    rest: &[Expr],
    vars: &Vars,
) -> Result<Fraction, ExprFault>
    ensures { result ≡ extreme_of bound first (values_of vars.now rest.now) }
{
    let mut best = Ok(first);
    for operand in rest {
        let next = value(operand, vars)?;
        best = better(bound, best, &next);
    }
    best
}

/// What an operator makes of two values.
fn applied(operator: Operator, left: &Fraction, right: &Fraction) -> Result<Fraction, ExprFault>
    ensures { result ≡ applied_of operator left.now right.now }
{
    match operator {
        Operator::Plus => left.plus(right),
        Operator::Minus => left.minus(right),
        Operator::Times => left.times(right),
        Operator::Over => left.over(right),
    }
}

/// The better of the best so far and the next value; a comparison that had a fault keeps it.
fn better(
    bound: Bound,
    best: Result<Fraction, ExprFault>,
    next: &Fraction,
) -> Result<Fraction, ExprFault>
    ensures { result ≡ better_of bound best next.now }
{
    let best = best?;
    match bound {
        Bound::Least => best.least(next),
        Bound::Greatest => best.greatest(next),
    }
}
