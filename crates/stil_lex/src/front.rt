//! What stands at the front of a text: a gap, a token or a fault.

ghost use Rattle.std.specs.Prelude.{◌≡◌, ◌+◌, ◌<◌, ◌≤◌, length};
ghost use Rattle.text_bytes.specs.Limits.{most_bytes};
ghost use Rattle.stil_lex.specs.Step.{closed_front, is_ann, mark_len, word_front, quoted_front, sign_front, front_of};

use crate::byte::{blanks_len, pair_place, place_of, quotable_len, starts_pair, word_len};
use crate::fault::LexFault;
use crate::token::TokenKind;
use text_bytes::{is_blank, is_printing, is_word};

/// A gap, which has no kind, or a token.
#[derive(Clone, Copy)]
pub(crate) struct Front {
    pub(crate) kind: Option<TokenKind>,
    /// How many bytes it has.
    pub(crate) len: usize,
}

fn gap(len: usize) -> Front
    ensures { result ≡ record { kind = None; len = len } }
{
    Front { kind: None, len }
}

fn token(kind: TokenKind, len: usize) -> Front
    ensures { result ≡ record { kind = Some kind; len = len } }
{
    Front {
        kind: Some(kind),
        len,
    }
}

/// The gap of which `opened` bytes are read, up to its closing pair.
#[tactic(auto, unfolding(crate::specs::Step::closed_front))]
fn closed_front(
    text: &[u8],
    at: usize,
    opened: usize,
    first: u8,
    second: u8,
) -> Result<Front, LexFault>
    requires opened { opened ≤ length text.now }
    requires short { length text.now ≤ most_bytes }
    ensures { result ≡ closed_front at opened first second text.now }
{
    let rest = &text[opened..];
    let place = pair_place(rest, first, second);
    if place == rest.len() {
        Err(LexFault::OpenComment(at))
    } else {
        Ok(gap(opened + place + 2))
    }
}

pub(crate) fn is_ann(word: &[u8]) -> bool
    ensures { result ≡ is_ann word.now }
{
    match word {
        [x, y, z] => *x == b'A' && *y == b'n' && *z == b'n',
        _ => false,
    }
}

/// How many bytes open an annotation behind `Ann`, or 0.
#[tactic(auto, unfolding(crate::specs::Step::mark_len))]
pub(crate) fn mark_len(text: &[u8]) -> usize
    requires { length text.now ≤ most_bytes }
    ensures len { result ≡ mark_len text.now }
    ensures within { result ≤ length text.now }
{
    let blanks = blanks_len(text);
    if starts_pair(&text[blanks..], b'{', b'*') {
        blanks + 2
    } else {
        0
    }
}

/// A word, or the annotation that it opens.
#[tactic(auto, unfolding(crate::specs::Step::word_front))]
fn word_front(text: &[u8], at: usize) -> Result<Front, LexFault>
    requires { length text.now ≤ most_bytes }
    ensures { result ≡ word_front at text.now }
{
    let len = word_len(text);
    if is_ann(&text[..len]) {
        let mark = mark_len(&text[3..]);
        if 0 < mark {
            return closed_front(text, at, 3 + mark, b'*', b'}');
        }
    }
    Ok(token(TokenKind::Word, len))
}

/// A Name or a Text, of which the opening quote is read.
#[tactic(auto, unfolding(crate::specs::Step::quoted_front))]
fn quoted_front(rest: &[u8], at: usize, quote: u8, kind: TokenKind) -> Result<Front, LexFault>
    requires place { at ≤ most_bytes }
    requires short { length rest.now ≤ most_bytes }
    ensures { result ≡ quoted_front at quote kind rest.now }
{
    let len = place_of(rest, quote);
    if len == rest.len() {
        return Err(LexFault::OpenQuote(at));
    }
    let good = quotable_len(&rest[..len]);
    if good < len {
        return Err(LexFault::BadByte(at + 1 + good));
    }
    Ok(token(kind, len + 2))
}

/// A sign, or the comment that it opens.
#[tactic(auto, unfolding(crate::specs::Step::sign_front))]
fn sign_front(text: &[u8], at: usize, byte: u8) -> Result<Front, LexFault>
    requires { length text.now ≤ most_bytes }
    ensures { result ≡ sign_front at byte text.now }
{
    if starts_pair(text, b'/', b'/') {
        Ok(gap(place_of(text, b'\n')))
    } else if starts_pair(text, b'/', b'*') {
        closed_front(text, at, 2, b'*', b'/')
    } else {
        Ok(token(TokenKind::Sign(byte), 1))
    }
}

/// What stands at the front of a text whose first byte has the place `at`.
#[tactic(auto, unfolding(crate::specs::Step::front_of))]
pub(crate) fn front_of(text: &[u8], at: usize) -> Result<Front, LexFault>
    requires place { at ≤ most_bytes }
    requires short { length text.now ≤ most_bytes }
    ensures { result ≡ front_of at text.now }
{
    match text {
        [] => Ok(gap(0)),
        [byte, rest @ ..] => {
            if is_word(*byte) {
                word_front(text, at)
            } else if is_blank(*byte) {
                Ok(gap(1))
            } else if *byte == b'"' {
                quoted_front(rest, at, b'"', TokenKind::Name)
            } else if *byte == b'\'' {
                quoted_front(rest, at, b'\'', TokenKind::Text)
            } else if is_printing(*byte) {
                sign_front(text, at, *byte)
            } else {
                Err(LexFault::BadByte(at))
            }
        }
    }
}
