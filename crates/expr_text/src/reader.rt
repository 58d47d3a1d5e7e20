//! The part of an expression that is read so far.

ghost use Rattle.std.specs.Prelude.{◌≡◌, [], ◌∷◌};
ghost use Rattle.expr_text.specs.Tree.{tree_of};
ghost use Rattle.expr_text.specs.Machine.{nothing, before, behind, opened, separated_in, separated, closed_in, closed, first_step, next_step, step, outcome};
ghost use Rattle.expr_text.specs.Memory.{lexeme_of, sum_of, purpose_in, frame_of, frames_of, state_of, Steps, Answers, IsSeparated, IsClosed};
ghost use Rattle.expr_text.specs.declared.reader.Group.TheVariants.{Operands};

use crate::expr::{Bound, Expr};
use crate::fault::ExprFault;
use crate::sum::{OpenSum, extreme_expr, name_expr, number_expr};
use crate::token::Token;
use std::alloc::Global;

/// How many parentheses may stand one inside another.
const MOST_PARENS: usize = 64;

/// What a parenthesis is for.
#[derive(Drop)]
pub(crate) enum Group {
    Sum,
    /// `min` or `max` before its first operand.
    NoOperand(Bound),
    /// `min` or `max` with the operands before.
    Operands(Bound, Expr, Vec<Expr>),
}

/// An open parenthesis, with the sum around it.
#[derive(Drop)]
pub(crate) struct Paren {
    around: OpenSum,
    group: Group,
}

/// The open parentheses, the innermost last, and the innermost sum, before a factor or behind one.
#[derive(Drop)]
pub(crate) enum Reader {
    Before(Vec<Paren>, OpenSum),
    Behind(Vec<Paren>, OpenSum, Expr),
}

/// Before the first factor in a parenthesis.
fn with_paren(parens: Vec<Paren>, paren: Paren) -> Result<Reader, ExprFault>
    ensures { Steps result (before (frame_of paren ∷ frames_of parens.items) nothing) }
{
    let mut parens = parens;
    parens.push(paren)?;
    Ok(Reader::Before(parens, OpenSum::new()))
}

/// A parenthesis opens.
fn opened(parens: Vec<Paren>, around: OpenSum, bound: Option<Bound>) -> Result<Reader, ExprFault>
    ensures { Steps result (opened (frames_of parens.items) (sum_of around) bound) }
{
    if parens.len() == MOST_PARENS {
        return Err(ExprFault::BadExpr);
    }
    let group = match bound {
        None => Group::Sum,
        Some(bound) => Group::NoOperand(bound),
    };
    with_paren(parens, Paren { around, group })
}

/// The operands with one more, at a comma.
fn separated_group(alloc: Global, group: Group, operand: Expr) -> Result<Group, ExprFault>
    ensures { IsSeparated result (purpose_in group) (tree_of operand) }
{
    match group {
        Group::Sum => Err(ExprFault::BadExpr),
        Group::NoOperand(bound) => Ok(Group::Operands(bound, operand, Vec::new(alloc))),
        Group::Operands(bound, first, others) => {
            let mut others = others;
            others.push(operand)?;
            Ok(Group::Operands(bound, first, others))
        }
    }
}

/// A comma stands behind an operand in this parenthesis.
fn separated_paren(
    alloc: Global,
    parens: Vec<Paren>,
    paren: Paren,
    operand: Expr,
) -> Result<Reader, ExprFault>
    ensures { Steps result
        (separated_in (purpose_in paren.group) (sum_of paren.around) (frames_of parens.items) (tree_of operand)) }
{
    let Paren { around, group } = paren;
    let group = separated_group(alloc, group, operand)?;
    with_paren(parens, Paren { around, group })
}

/// A sum ends at a comma.
fn separated(alloc: Global, parens: Vec<Paren>, operand: Expr) -> Result<Reader, ExprFault>
    ensures { Steps result (separated (frames_of parens.items) (tree_of operand)) }
{
    let mut parens = parens;
    match parens.pop() {
        Some(paren) => separated_paren(alloc, parens, paren, operand),
        None => Err(ExprFault::BadExpr),
    }
}

/// `min` or `max` with its last operand.
fn closed_operands(
    alloc: Global,
    bound: Bound,
    first: Expr,
    others: Vec<Expr>,
    operand: Expr,
) -> Result<Expr, ExprFault>
    ensures { IsClosed result (purpose_in (Operands bound first others)) (tree_of operand) }
{
    let mut others = others;
    others.push(operand)?;
    Ok(extreme_expr(alloc, bound, first, others)?)
}

/// The factor that a closing parenthesis ends.
fn closed_group(alloc: Global, group: Group, operand: Expr) -> Result<Expr, ExprFault>
    ensures { IsClosed result (purpose_in group) (tree_of operand) }
{
    match group {
        Group::Sum => Ok(operand),
        Group::NoOperand(_) => Err(ExprFault::BadExpr),
        Group::Operands(bound, first, others) => {
            closed_operands(alloc, bound, first, others, operand)
        }
    }
}

/// This parenthesis closes behind an operand.
fn closed_paren(
    alloc: Global,
    parens: Vec<Paren>,
    paren: Paren,
    operand: Expr,
) -> Result<Reader, ExprFault>
    ensures { Steps result
        (closed_in (purpose_in paren.group) (sum_of paren.around) (frames_of parens.items) (tree_of operand)) }
{
    let Paren { around, group } = paren;
    let factor = closed_group(alloc, group, operand)?;
    Ok(Reader::Behind(parens, around, factor))
}

/// A sum ends at a closing parenthesis.
fn closed(alloc: Global, parens: Vec<Paren>, operand: Expr) -> Result<Reader, ExprFault>
    ensures { Steps result (closed (frames_of parens.items) (tree_of operand)) }
{
    let mut parens = parens;
    match parens.pop() {
        Some(paren) => closed_paren(alloc, parens, paren, operand),
        None => Err(ExprFault::BadExpr),
    }
}

/// A token before a factor.
fn first_step(
    alloc: Global,
    parens: Vec<Paren>,
    sum: OpenSum,
    token: &Token,
) -> Result<Reader, ExprFault>
    ensures { Steps result (first_step (frames_of parens.items) (sum_of sum) (lexeme_of token.now)) }
{
    match token {
        Token::Number(number) => {
            let factor = number_expr(number.value, number.unit);
            Ok(Reader::Behind(parens, sum, factor))
        }
        Token::Name(name) => {
            let factor = name_expr(alloc, name)?;
            Ok(Reader::Behind(parens, sum, factor))
        }
        Token::Open(bound) => opened(parens, sum, *bound),
        _ => Err(ExprFault::BadExpr),
    }
}

/// A token behind a factor.
fn next_step(
    alloc: Global,
    parens: Vec<Paren>,
    sum: OpenSum,
    factor: Expr,
    token: &Token,
) -> Result<Reader, ExprFault>
    ensures { Steps result (next_step (frames_of parens.items) (sum_of sum) (tree_of factor) (lexeme_of token.now)) }
{
    match token {
        Token::Operator(operator) => {
            let sum = sum.with_operator(alloc, factor, *operator)?;
            Ok(Reader::Before(parens, sum))
        }
        Token::Comma => {
            let operand = sum.total(alloc, factor)?;
            separated(alloc, parens, operand)
        }
        Token::Close => {
            let operand = sum.total(alloc, factor)?;
            closed(alloc, parens, operand)
        }
        _ => Err(ExprFault::BadExpr),
    }
}

/// The expression that ends with a factor, if no parenthesis is open.
fn finished(
    alloc: Global,
    parens: Vec<Paren>,
    sum: OpenSum,
    factor: Expr,
) -> Result<Expr, ExprFault>
    ensures { Answers tree_of result (outcome (behind (frames_of parens.items) (sum_of sum) (tree_of factor))) }
{
    if parens.is_empty() {
        Ok(sum.total(alloc, factor)?)
    } else {
        Err(ExprFault::BadExpr)
    }
}

impl Reader {
    /// Before any token.
    pub(crate) fn new(alloc: Global) -> Reader
        ensures { state_of result ≡ before [] nothing }
    {
        Reader::Before(Vec::new(alloc), OpenSum::new())
    }

    /// One token more.
    pub(crate) fn token(self, alloc: Global, token: &Token) -> Result<Reader, ExprFault>
        ensures { Steps result (step (state_of self) (lexeme_of token.now)) }
    {
        match self {
            Reader::Before(parens, sum) => first_step(alloc, parens, sum, token),
            Reader::Behind(parens, sum, factor) => next_step(alloc, parens, sum, factor, token),
        }
    }

    /// The expression behind the last token.
    pub(crate) fn finish(self, alloc: Global) -> Result<Expr, ExprFault>
        ensures { Answers tree_of result (outcome (state_of self)) }
    {
        match self {
            Reader::Before(..) => Err(ExprFault::BadExpr),
            Reader::Behind(parens, sum, factor) => finished(alloc, parens, sum, factor),
        }
    }
}
