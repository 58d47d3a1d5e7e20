//! A sum that is read up to a factor.

ghost use Rattle.std.specs.Prelude.{◌≡◌, IfOk, map, option_map};
ghost use Rattle.expr_text.specs.Tree.{tree_of, number, name, chain, extreme, with_links, with_others};
ghost use Rattle.expr_text.specs.Machine.{finished_by, grown_by, nothing, total, with_operator};
ghost use Rattle.expr_text.specs.Memory.{link_of, unfinished_of, sum_of};

use crate::expr::{Bound, Expr, Operator};
use crate::fraction::Fraction;
use crate::unit::Unit;
use std::alloc::{AllocError, Global};
use tester_types::Text;

/// Operands that are joined so far, and the operator behind the last of them.
#[derive(Drop)]
pub(crate) struct Operands {
    first: Expr,
    links: Vec<(Operator, Expr)>,
    next: Operator,
}

/// The terms before, and the factors before in the last term.
#[derive(Drop)]
pub(crate) struct OpenSum {
    terms: Option<Operands>,
    factors: Option<Operands>,
}

pub(crate) fn number_expr(value: Fraction, unit: Unit) -> Expr
    ensures { tree_of result ≡ number value unit }
{
    Expr::Number(value, unit)
}

pub(crate) fn name_expr(alloc: Global, bytes: &[u8]) -> Result<Expr, AllocError>
    ensures { IfOk result (λ e. tree_of e ≡ name bytes.now) }
{
    Ok(Expr::Name(Text::from_slice(alloc, bytes)?))
}

fn chain_expr(alloc: Global, first: Expr, links: Vec<(Operator, Expr)>) -> Result<Expr, AllocError>
    ensures { IfOk result (λ e. tree_of e ≡ with_links (chain (tree_of first)) (map link_of links.items)) }
{
    let first = Box::new(alloc, first)?;
    Ok(Expr::Chain(first, links))
}

pub(crate) fn extreme_expr(
    alloc: Global,
    bound: Bound,
    first: Expr,
    others: Vec<Expr>,
) -> Result<Expr, AllocError>
    ensures { IfOk result (λ e. tree_of e ≡ with_others (extreme bound (tree_of first)) (map tree_of others.items)) }
{
    let first = Box::new(alloc, first)?;
    Ok(Expr::Extreme(bound, first, others))
}

/// The operands with one more.
fn finished(alloc: Global, operands: Option<Operands>, last: Expr) -> Result<Expr, AllocError>
    ensures { IfOk result (λ e. tree_of e ≡ finished_by (option_map unfinished_of operands) (tree_of last)) }
{
    let Some(operands) = operands else {
        return Ok(last);
    };
    let Operands { first, links, next } = operands;
    let mut links = links;
    links.push((next, last))?;
    chain_expr(alloc, first, links)
}

/// The operands with one more, behind which an operator follows.
fn grown(
    alloc: Global,
    operands: Option<Operands>,
    last: Expr,
    next: Operator,
) -> Result<Operands, AllocError>
    ensures { IfOk result
        (λ o. Some (unfinished_of o) ≡ grown_by (option_map unfinished_of operands) (tree_of last) next) }
{
    let Some(operands) = operands else {
        return Ok(Operands {
            first: last,
            links: Vec::new(alloc),
            next,
        });
    };
    let Operands {
        first,
        links,
        next: before,
    } = operands;
    let mut links = links;
    links.push((before, last))?;
    Ok(Operands { first, links, next })
}

impl OpenSum {
    /// A sum of nothing so far.
    pub(crate) fn new() -> OpenSum
        ensures { sum_of result ≡ nothing }
    {
        OpenSum {
            terms: None,
            factors: None,
        }
    }

    /// The sum with its last factor.
    pub(crate) fn total(self, alloc: Global, factor: Expr) -> Result<Expr, AllocError>
        ensures { IfOk result (λ e. tree_of e ≡ total (sum_of self) (tree_of factor)) }
    {
        let term = finished(alloc, self.factors, factor)?;
        finished(alloc, self.terms, term)
    }

    /// The sum with a factor, behind which an operator follows.
    pub(crate) fn with_operator(
        self,
        alloc: Global,
        factor: Expr,
        operator: Operator,
    ) -> Result<OpenSum, AllocError>
        ensures { IfOk result (λ s. sum_of s ≡ with_operator (sum_of self) (tree_of factor) operator) }
    {
        let OpenSum { terms, factors } = self;
        match operator {
            Operator::Plus | Operator::Minus => {
                let term = finished(alloc, factors, factor)?;
                let terms = Some(grown(alloc, terms, term, operator)?);
                Ok(OpenSum {
                    terms,
                    factors: None,
                })
            }
            Operator::Times | Operator::Over => {
                let factors = Some(grown(alloc, factors, factor, operator)?);
                Ok(OpenSum { terms, factors })
            }
        }
    }
}
