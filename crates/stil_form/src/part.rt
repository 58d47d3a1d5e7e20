//! Tokens as readers of forms see them.

ghost use Rattle.std.specs.Prelude.{◌≡◌};
ghost use Rattle.stil_form.specs.Lexeme.{lexeme_of, lexeme_at, sign_kind};

use stil_lex::{Token, TokenKind};

/// A sign.
#[derive(Clone, Copy, Debug, PartialEq, Eq)]
pub enum SignKind {
    /// `[`
    Open,
    /// `]`
    Close,
    Dot,
    Equals,
    Hash,
    Percent,
    Slash,
    Backslash,
    Colon,
    Plus,
    Minus,
    Bang,
    /// Any other sign, by its byte.
    Other(u8),
}

/// A token by its kind and its text, which is without quotes.
#[derive(Clone, Copy, Debug)]
pub enum Part<'a> {
    Word(&'a [u8]),
    /// What stood in double quotes.
    Name(&'a [u8]),
    /// What stood in single quotes.
    Text(&'a [u8]),
    Sign(SignKind),
}

#[inline(always)]
fn sign_kind(byte: u8) -> SignKind
    ensures { result ≡ sign_kind byte }
{
    match byte {
        b'[' => SignKind::Open,
        b']' => SignKind::Close,
        b'.' => SignKind::Dot,
        b'=' => SignKind::Equals,
        b'#' => SignKind::Hash,
        b'%' => SignKind::Percent,
        b'/' => SignKind::Slash,
        b'\\' => SignKind::Backslash,
        b':' => SignKind::Colon,
        b'+' => SignKind::Plus,
        b'-' => SignKind::Minus,
        b'!' => SignKind::Bang,
        _ => SignKind::Other(byte),
    }
}

/// The part that a token of these bytes is.
#[inline(always)]
pub fn part_of<'a>(bytes: &'a [u8], token: &Token) -> Part<'a>
    ensures { lexeme_of result ≡ lexeme_at bytes.now token.now }
{
    match token.kind {
        TokenKind::Word => Part::Word(token.text(bytes)),
        TokenKind::Name => Part::Name(token.text(bytes)),
        TokenKind::Text => Part::Text(token.text(bytes)),
        TokenKind::Sign(byte) => Part::Sign(sign_kind(byte)),
    }
}
