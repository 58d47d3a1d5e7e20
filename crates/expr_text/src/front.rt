//! The token at the front of a text.

ghost use Rattle.std.specs.Prelude.{◌≡◌, ◌+◌, ◌<◌, ◌≤◌, ◌^◌, length};
ghost use Rattle.expr_text.specs.Front.{bound_of, paren_len, short_name, called, word_front, quoted_front, sign_front, front_of};
ghost use Rattle.expr_text.specs.Memory.{front_in};

use crate::byte::{begins, blanks_len, quotable_len, word_len};
use crate::expr::{Bound, Operator};
use crate::number::number_front;
use crate::token::Token;
use text_bytes::{LONGEST_NAME, begins_name, is_digit};

fn bound_of(word: &[u8]) -> Option<Bound>
    ensures { result ≡ bound_of word.now }
{
    if word == b"min".as_slice() {
        Some(Bound::Least)
    } else if word == b"max".as_slice() {
        Some(Bound::Greatest)
    } else {
        None
    }
}

/// How many bytes a `(` has with the blanks before it; 0, where there is none.
#[tactic(auto, unfolding(crate::specs::Front::paren_len))]
fn paren_len(text: &[u8]) -> usize
    ensures len { result ≡ paren_len text.now }
    ensures within { result ≤ length text.now }
{
    let blanks = blanks_len(text);
    if begins(&text[blanks..], b'(') {
        blanks + 1
    } else {
        0
    }
}

/// A name of so many bytes in the text, if it isn't too long.
#[tactic(auto, unfolding(crate::specs::Front::short_name))]
fn short_name(name: &[u8], len: usize) -> Option<(Token, usize)>
    ensures { front_in result ≡ short_name name.now len }
{
    if name.len() <= LONGEST_NAME {
        Some((Token::Name(name), len))
    } else {
        None
    }
}

/// A call, where a parenthesis stands behind its word, or a name.
fn called(bound: Option<Bound>, word: &[u8], paren: usize) -> Option<(Token, usize)>
    requires { length word.now + paren < 2 ^ 64 }
    ensures { front_in result ≡ called bound word.now paren }
{
    match bound {
        Some(_) if 0 < paren => Some((Token::Open(bound), word.len() + paren)),
        _ => short_name(word, word.len()),
    }
}

/// A name without quotes, or a call.
#[tactic(auto, unfolding(crate::specs::Front::word_front))]
fn word_front(text: &[u8]) -> Option<(Token, usize)>
    ensures { front_in result ≡ word_front text.now }
{
    let len = word_len(text);
    let word = &text[..len];
    called(bound_of(word), word, paren_len(&text[len..]))
}

/// A name in quotes, of which the first is read.
#[tactic(auto, unfolding(crate::specs::Front::quoted_front))]
fn quoted_front(rest: &[u8]) -> Option<(Token, usize)>
    ensures { front_in result ≡ quoted_front rest.now }
{
    let len = quotable_len(rest);
    if begins(&rest[len..], b'"') && 0 < len {
        short_name(&rest[..len], len + 2)
    } else {
        None
    }
}

#[tactic(auto, unfolding(crate::specs::Front::sign_front))]
fn sign_front<'a>(byte: u8) -> Option<(Token<'a>, usize)>
    ensures { front_in result ≡ sign_front byte }
{
    match byte {
        b'+' => Some((Token::Operator(Operator::Plus), 1)),
        b'-' => Some((Token::Operator(Operator::Minus), 1)),
        b'*' => Some((Token::Operator(Operator::Times), 1)),
        b'/' => Some((Token::Operator(Operator::Over), 1)),
        b'(' => Some((Token::Open(None), 1)),
        b',' => Some((Token::Comma, 1)),
        b')' => Some((Token::Close, 1)),
        _ => None,
    }
}

/// The token at the front of a text that begins with no blank, and how many bytes it has.
#[tactic(auto, unfolding(crate::specs::Front::front_of))]
pub(crate) fn front_of(text: &[u8]) -> Option<(Token, usize)>
    ensures { front_in result ≡ front_of text.now }
{
    match text {
        [] => None,
        [byte, rest @ ..] => {
            if is_digit(*byte) {
                Some(number_front(text))
            } else if begins_name(*byte) {
                word_front(text)
            } else if *byte == b'"' {
                quoted_front(rest)
            } else {
                sign_front(*byte)
            }
        }
    }
}
