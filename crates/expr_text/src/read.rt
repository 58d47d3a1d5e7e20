//! Expressions from their texts.

ghost use Rattle.std.specs.Prelude.{◌≡◌, ◌⊎◌, ◌<◌, length, true, Some, IfOk, IfErr, MatchResult};
ghost use Rattle.expr_text.specs.Tree.{Tree, tree_of};
ghost use Rattle.expr_text.specs.Spelling.{Spells, IsFault};
ghost use Rattle.expr_text.specs.Machine.{read_of};
ghost use Rattle.expr_text.specs.Front.{front_of};
ghost use Rattle.expr_text.specs.Memory.{lexeme_of, state_of, Answers, ReadsFront, ReadsOn};
ghost use Rattle.expr_text.specs.declared.fault.ExprFault.{ExprFault};
ghost use Rattle.expr_text.specs.declared.fault.ExprFault.TheVariants.{NoMemory};

use crate::expr::Expr;
use crate::fault::ExprFault;
use crate::front::front_of;
use crate::reader::Reader;
use crate::token::{Token, is_in_range};
use std::alloc::Global;
use text_bytes::is_blank;

/// What is read behind the front of a text, whether no number of the front is out of range, and how many bytes it has.
#[derive(Drop)]
pub(crate) struct Progress {
    reader: Reader,
    in_range: bool,
    len: usize,
}

/// Reads a token of so many bytes.
fn past_token(
    alloc: Global,
    reader: Reader,
    token: &Token,
    len: usize,
) -> Result<Progress, ExprFault>
    ensures { ReadsFront result (state_of reader) (Some (lexeme_of token.now, len)) }
{
    let in_range = is_in_range(token);
    let reader = reader.token(alloc, token)?;
    Ok(Progress {
        reader,
        in_range,
        len,
    })
}

/// Reads the token at the front of a text that begins with no blank.
fn over_token(alloc: Global, reader: Reader, text: &[u8]) -> Result<Progress, ExprFault>
    ensures { ReadsFront result (state_of reader) (front_of text.now) }
{
    match front_of(text) {
        Some((token, len)) => past_token(alloc, reader, &token, len),
        None => Err(ExprFault::BadExpr),
    }
}

/// Reads the blank or the token at the front of a text.
fn read_on(alloc: Global, reader: Reader, text: &[u8]) -> Result<Progress, ExprFault>
    requires { 0 < length text.now }
    ensures { ReadsOn result (state_of reader) text.now }
{
    if is_blank(text[0]) {
        Ok(Progress {
            reader,
            in_range: true,
            len: 1,
        })
    } else {
        over_token(alloc, reader, text)
    }
}

/// The expression that a whole text spells, and whether all its numbers are in range.
fn spelled(alloc: Global, text: &[u8]) -> Result<(Expr, bool), ExprFault>
    ensures { Answers (λ read. (tree_of read.0, read.1)) result (read_of text.now) }
{
    let mut reader = Reader::new(alloc);
    let mut in_range = true;
    let mut at = 0;
    while at < text.len() {
        let progress = read_on(alloc, reader, &text[at..])?;
        reader = progress.reader;
        in_range = in_range && progress.in_range;
        at += progress.len;
    }
    let expr = reader.finish(alloc)?;
    Ok((expr, in_range))
}

/// The expression that a whole text spells.
///
/// A sum is terms joined by `+` or `-`, and a term is factors joined by `*` or `/`. A factor is a number, a name, a sum in
/// parentheses, or `min(..)` or `max(..)` of two or more sums with commas between them; up to 64 parentheses may stand one
/// inside another. A number is digits, maybe with a point and decimals, and its unit directly behind. Blanks may stand
/// between all of these. A text that spells no expression is BadExpr; else a number is OutOfRange if all its digits as one
/// number, or the power of ten of its decimals, are beyond 2^127 - 1.
pub fn read_expr(alloc: Global, text: &[u8]) -> Result<Expr, ExprFault>
    ensures found { IfOk result (λ expr. Spells text.now (tree_of expr) true) }
    ensures only { (tree : Tree) → Spells text.now tree true
        → MatchResult result (λ expr. tree_of expr ≡ tree) (λ e. e ≡ NoMemory) }
    ensures fault { IfErr result (λ e. (e ≡ NoMemory) ⊎ IsFault text.now e) }
    ensures refused { (fault : ExprFault) → IsFault text.now fault
        → MatchResult result (λ _. ⊥) (λ e. (e ≡ NoMemory) ⊎ (e ≡ fault)) }
{
    let (expr, in_range) = spelled(alloc, text)?;
    if in_range {
        Ok(expr)
    } else {
        Err(ExprFault::OutOfRange)
    }
}
