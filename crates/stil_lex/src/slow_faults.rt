//! The fault of a text by its definition, plainly and slowly: pieces are taken from the left, each of which is looked for by
//! trying every length. Where none begins, one kind of refusal after another is tried.

ghost use Rattle.std.specs.Prelude.{◌≡◌, ◌+◌, ◌<◌, ◌≤◌, length, IfSome, IfNone, ℕ};
ghost use Rattle.text_bytes.specs.Limits.{most_bytes};
ghost use Rattle.stil_lex.specs.Faults.{is_quote, HasBadQuoted, IsRefusal, IsFault};
ghost use Rattle.stil_lex.specs.SlowFaults.{stray_test, open_quote_test, unclosed_test, open_comment_test, open_annotation_test, bad_rest_test, bad_quoted_test, IsFirstBad, IsFirstRefusal, IsReadUpTo};
ghost use Rattle.stil_lex.specs.declared.fault.LexFault.{LexFault};

use crate::byte::{may_be_quoted, pair_place, place_of, starts_pair};
use crate::fault::LexFault;
use crate::front::mark_len;
use crate::slow::{first, opens_annotation};
use text_bytes::{is_blank, is_printing};

/// Whether the text begins with a byte that no token and no gap begins with.
fn is_stray(text: &[u8]) -> bool
    ensures { result ≡ stray_test text.now }
{
    match text {
        [] => false,
        [b, ..] => !is_blank(*b) && !is_printing(*b),
    }
}

/// Whether the byte is a quote.
fn is_quote(byte: u8) -> bool
    ensures { result ≡ is_quote byte }
{
    byte == b'"' || byte == b'\''
}

/// Whether the text begins with a quote without an end.
fn is_open_quote(text: &[u8]) -> bool
    ensures { result ≡ open_quote_test text.now }
{
    match text {
        [] => false,
        [b, rest @ ..] => is_quote(*b) && place_of(rest, *b) == rest.len(),
    }
}

/// Whether the pair stands nowhere in the text.
#[tactic(auto, unfolding(crate::specs::SlowFaults::unclosed_test))]
fn is_unclosed(text: &[u8], first: u8, second: u8) -> bool
    ensures { result ≡ unclosed_test first second text.now }
{
    pair_place(text, first, second) == text.len()
}

/// Whether the text begins with a comment without an end.
#[tactic(auto, unfolding(crate::specs::SlowFaults::open_comment_test))]
fn is_open_comment(text: &[u8]) -> bool
    ensures { result ≡ open_comment_test text.now }
{
    starts_pair(text, b'/', b'*') && is_unclosed(&text[2..], b'*', b'/')
}

/// Whether the text begins with an annotation without an end.
#[tactic(auto, unfolding(crate::specs::SlowFaults::open_annotation_test))]
fn is_open_annotation(text: &[u8]) -> bool
    requires { length text.now ≤ most_bytes }
    ensures { result ≡ open_annotation_test text.now }
{
    if !opens_annotation(text) {
        return false;
    }
    let behind = &text[3..];
    let mark = mark_len(behind);
    is_unclosed(&behind[mark..], b'*', b'}')
}

/// Whether the quote ends behind its opening, and so many bytes behind that stands a byte that may not be quoted.
#[tactic(auto, unfolding(crate::specs::SlowFaults::bad_rest_test))]
fn is_bad_rest(rest: &[u8], quote: u8, skipped: usize) -> bool
    ensures { result ≡ bad_rest_test quote rest.now skipped }
{
    let end = place_of(rest, quote);
    end < rest.len() && skipped < end && !may_be_quoted(rest[skipped])
}

/// Whether such a byte stands in a quote at the front of the text.
fn is_bad_quoted(text: &[u8], skipped: usize) -> bool
    ensures { result ≡ bad_quoted_test text.now skipped }
{
    match text {
        [] => false,
        [b, rest @ ..] => is_quote(*b) && is_bad_rest(rest, *b, skipped),
    }
}

/// How many bytes behind the opening quote stands the first that may not be quoted.
fn bad_quoted(text: &[u8]) -> Option<usize>
    ensures some { IfSome result (λ skipped. IsFirstBad text.now skipped) }
    ensures none { IfNone result ((skipped : ℕ) → HasBadQuoted text.now skipped → ⊥) }
{
    for skipped in 0..text.len() {
        if is_bad_quoted(text, skipped) {
            return Some(skipped);
        }
    }
    None
}

/// The refusal with the smallest place, by what stands at the front of a text whose first byte has the place `at`.
fn refusal(text: &[u8], at: usize) -> Option<LexFault>
    requires { at + length text.now ≤ most_bytes }
    ensures some { IfSome result (λ fault. IsFirstRefusal text.now at fault) }
    ensures none { IfNone result ((fault : LexFault) → IsRefusal text.now at fault → ⊥) }
{
    if is_stray(text) {
        return Some(LexFault::BadByte(at));
    }
    if is_open_quote(text) {
        return Some(LexFault::OpenQuote(at));
    }
    if is_open_comment(text) {
        return Some(LexFault::OpenComment(at));
    }
    if is_open_annotation(text) {
        return Some(LexFault::OpenComment(at));
    }
    if let Some(skipped) = bad_quoted(text) {
        return Some(LexFault::BadByte(at + 1 + skipped));
    }
    None
}

/// Up to where the text is pieces: the first place where none begins.
fn pieces_len(bytes: &[u8]) -> usize
    requires { length bytes.now ≤ most_bytes }
    ensures { IsReadUpTo bytes.now result }
{
    let mut at = 0usize;
    while let Some(front) = first(&bytes[at..]) {
        at += front.len;
    }
    at
}

/// The fault of a text, or none where it has none.
pub(crate) fn slow_fault(bytes: &[u8]) -> Option<LexFault>
    requires { length bytes.now ≤ most_bytes }
    ensures some { IfSome result (λ fault. IsFault bytes.now fault) }
    ensures none { IfNone result ((fault : LexFault) → IsFault bytes.now fault → ⊥) }
{
    let at = pieces_len(bytes);
    refusal(&bytes[at..], at)
}
