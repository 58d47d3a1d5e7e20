//! A plain slow lexer, whose contract is the definition: at each place it tries every length. It gives the tokens of a text
//! that has a reading, and none exactly where there is no reading.

ghost use Rattle.std.specs.Prelude.{◌≡◌, ◌≤◌, length, IfOk, IfSome, IfNone, IsTrue, List, ℕ, Option};
ghost use Rattle.std.specs.List.{list_all, list_any};
ghost use Rattle.text_bytes.specs.Limits.{most_bytes};
ghost use Rattle.stil_lex.specs.Bytes.{may_be_quoted, line_feed};
ghost use Rattle.text_bytes.specs.Bytes.{begins_with, is_word};
ghost use Rattle.stil_lex.specs.Tokens.{Reads};
ghost use Rattle.stil_lex.specs.Pieces.{IsToken};
ghost use Rattle.stil_lex.specs.declared.token.Token.{Token};
ghost use Rattle.stil_lex.specs.declared.token.TokenKind.{TokenKind};
ghost use Rattle.stil_lex.specs.Slow.{blank_test, closed_test, ends_or_begins, line_test, comment_test, opened_test, annotation_test, gap_test, word_test, quoted_rest_test, quoted_test, comments_test, sign_byte_test, sign_test, IsKind, Begins};

use crate::byte::{may_be_quoted, pair_place, place_of, starts_pair};
use crate::front::{Front, is_ann, mark_len};
use crate::lexer::keep;
use crate::list::TokenList;
use crate::token::TokenKind;
use std::alloc::{AllocError, Global};
use text_bytes::{all_words, is_blank, is_printing, is_word, line_feeds};

fn is_one_blank(text: &[u8]) -> bool
    ensures { result ≡ blank_test text.now }
{
    match text {
        [b] => is_blank(*b),
        _ => false,
    }
}

/// Whether the first such pair ends the text.
#[tactic(auto, unfolding(crate::specs::Slow::closed_test))]
fn is_closed(text: &[u8], first: u8, second: u8) -> bool
    requires { length text.now ≤ most_bytes }
    ensures { result ≡ closed_test first second text.now }
{
    pair_place(text, first, second) + 2 == text.len()
}

fn ends_or_begins(text: &[u8], byte: u8) -> bool
    ensures { result ≡ ends_or_begins byte text.now }
{
    match text {
        [] => true,
        [b, ..] => *b == byte,
    }
}

#[tactic(auto, unfolding(crate::specs::Slow::line_test))]
fn is_line_comment(text: &[u8], after: &[u8]) -> bool
    ensures { result ≡ line_test text.now after.now }
{
    starts_pair(text, b'/', b'/')
        && place_of(text, b'\n') == text.len()
        && ends_or_begins(after, b'\n')
}

#[tactic(auto, unfolding(crate::specs::Slow::comment_test))]
fn is_comment(text: &[u8]) -> bool
    requires { length text.now ≤ most_bytes }
    ensures { result ≡ comment_test text.now }
{
    starts_pair(text, b'/', b'*') && is_closed(&text[2..], b'*', b'/')
}

pub(crate) fn opens_annotation(text: &[u8]) -> bool
    requires { length text.now ≤ most_bytes }
    ensures test { result ≡ opened_test text.now }
    ensures long { IsTrue result → 3 ≤ length text.now }
{
    match text {
        [x, y, z, behind @ ..] => is_ann(&[*x, *y, *z]) && 0 < mark_len(behind),
        _ => false,
    }
}

#[tactic(auto, unfolding(crate::specs::Slow::annotation_test))]
fn is_annotation(text: &[u8]) -> bool
    requires { length text.now ≤ most_bytes }
    ensures { result ≡ annotation_test text.now }
{
    if !opens_annotation(text) {
        return false;
    }
    let behind = &text[3..];
    let mark = mark_len(behind);
    is_closed(&behind[mark..], b'*', b'}')
}

fn is_gap(text: &[u8], after: &[u8]) -> bool
    requires { length text.now ≤ most_bytes }
    ensures { result ≡ gap_test text.now after.now }
{
    is_one_blank(text) || is_line_comment(text, after) || is_comment(text) || is_annotation(text)
}

fn all_quotable(text: &[u8]) -> bool
    ensures { result ≡ list_all may_be_quoted text.now }
{
    text.iter().all(|b| may_be_quoted(*b))
}

fn begins_word(text: &[u8]) -> bool
    ensures { result ≡ begins_with is_word text.now }
{
    match text {
        [] => false,
        [b, ..] => is_word(*b),
    }
}

#[tactic(auto, unfolding(crate::specs::Slow::word_test))]
fn is_whole_word(text: &[u8], after: &[u8]) -> bool
    requires { length after.now ≤ most_bytes }
    ensures { result ≡ word_test text.now after.now }
{
    0 < text.len()
        && all_words(text)
        && !begins_word(after)
        && !(is_ann(text) && 0 < mark_len(after))
}

#[tactic(auto, unfolding(crate::specs::Slow::quoted_rest_test))]
fn is_quoted_rest(rest: &[u8], quote: u8) -> bool
    requires { length rest.now ≤ most_bytes }
    ensures { result ≡ quoted_rest_test quote rest.now }
{
    let len = place_of(rest, quote);
    len + 1 == rest.len() && all_quotable(&rest[..len])
}

fn is_quoted(text: &[u8], quote: u8) -> bool
    requires { length text.now ≤ most_bytes }
    ensures { result ≡ quoted_test quote text.now }
{
    match text {
        [] => false,
        [b, rest @ ..] => *b == quote && is_quoted_rest(rest, quote),
    }
}

#[tactic(auto, unfolding(crate::specs::Slow::comments_test))]
fn opens_comment(byte: u8, after: &[u8]) -> bool
    ensures { result ≡ comments_test byte after.now }
{
    match after {
        [] => false,
        [b, ..] => byte == b'/' && (*b == b'/' || *b == b'*'),
    }
}

#[tactic(auto, unfolding(crate::specs::Slow::sign_byte_test))]
fn is_sign(byte: u8, after: &[u8]) -> bool
    ensures { result ≡ sign_byte_test byte after.now }
{
    is_printing(byte)
        && !is_word(byte)
        && !(byte == b'"' || byte == b'\'')
        && !opens_comment(byte, after)
}

/// Whether the whole text is a sign.
fn is_sign_text(text: &[u8], after: &[u8]) -> bool
    ensures { result ≡ sign_test text.now after.now }
{
    match text {
        [byte] => is_sign(*byte, after),
        _ => false,
    }
}

fn token_kind(text: &[u8], after: &[u8]) -> Option<TokenKind>
    requires text { length text.now ≤ most_bytes }
    requires after { length after.now ≤ most_bytes }
    ensures some { IfSome result (λ kind. IsToken kind text.now after.now) }
    ensures none { IfNone result ((kind : TokenKind) → IsToken kind text.now after.now → ⊥) }
{
    if is_whole_word(text, after) {
        return Some(TokenKind::Word);
    }
    if is_quoted(text, b'"') {
        return Some(TokenKind::Name);
    }
    if is_quoted(text, b'\'') {
        return Some(TokenKind::Text);
    }
    if is_sign_text(text, after) {
        return Some(TokenKind::Sign(text[0]));
    }
    None
}

/// The first gap or token at the front of a text, or none where no gap and no token stands there.
pub(crate) fn first(text: &[u8]) -> Option<Front>
    requires { length text.now ≤ most_bytes }
    ensures some { IfSome result (λ f. Begins f.kind f.len text.now) }
    ensures none { IfNone result ((kind : Option TokenKind) (len : ℕ) → Begins kind len text.now → ⊥) }
{
    for len in 1..text.len() + 1 {
        let front = &text[..len];
        let after = &text[len..];
        if is_gap(front, after) {
            return Some(Front { kind: None, len });
        }
        if let Some(kind) = token_kind(front, after) {
            return Some(Front {
                kind: Some(kind),
                len,
            });
        }
    }
    None
}

/// The tokens of a text, or none where it has no reading.
pub(crate) fn slow_lex(alloc: Global, bytes: &[u8]) -> Result<Option<TokenList>, AllocError>
    requires { length bytes.now ≤ most_bytes }
    ensures some { IfOk result (λ found. IfSome found (λ tokens. Reads bytes.now tokens)) }
    ensures none { IfOk result (λ found. IfNone found ((tokens : List Token) → Reads bytes.now tokens → ⊥)) }
{
    let mut tokens = Vec::new(alloc);
    let mut at = 0usize;
    while at < bytes.len() {
        let Some(front) = first(&bytes[at..]) else {
            return Ok(None);
        };
        let end = at + front.len;
        let line = 1 + line_feeds(&bytes[..at]) as u32;
        keep(&mut tokens, front.kind, at as u32, end as u32, line)?;
        at = end;
    }
    Ok(Some(TokenList::from_vec(tokens)))
}
