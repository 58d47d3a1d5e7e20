//! The tokens of an expression.

ghost use Rattle.std.specs.Prelude.{◌≡◌};
ghost use Rattle.expr_text.specs.Lexeme.{is_in_range};
ghost use Rattle.expr_text.specs.Memory.{lexeme_of};

use crate::expr::{Bound, Operator};
use crate::fraction::Fraction;
use crate::unit::Unit;

/// A number of the text. Where it is out of range, it is marked, and has the value 0.
#[derive(Clone, Copy)]
pub(crate) struct Number {
    pub(crate) value: Fraction,
    pub(crate) unit: Unit,
    pub(crate) in_range: bool,
}

#[derive(Clone, Copy)]
pub(crate) enum Token<'a> {
    Number(Number),
    /// A name, without quotes.
    Name(&'a [u8]),
    Operator(Operator),
    /// `(`, where `min` or `max` stands before it with this.
    Open(Option<Bound>),
    Comma,
    Close,
}

/// Whether the token is no number out of range.
pub(crate) fn is_in_range(token: &Token) -> bool
    ensures { result ≡ is_in_range (lexeme_of token.now) }
{
    match token {
        Token::Number(number) => number.in_range,
        _ => true,
    }
}
