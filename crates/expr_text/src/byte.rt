//! The bytes of an expression, and how many stand together at its front.

ghost use Rattle.std.specs.Prelude.{◌≡◌, ◌≤◌, length};
ghost use Rattle.std.specs.List.{prefix_len};
ghost use Rattle.text_bytes.specs.Bytes.{is_blank, is_digit, is_word};
ghost use Rattle.expr_text.specs.Bytes.{may_be_quoted};
ghost use Rattle.expr_text.specs.Front.{begins, begins_pair};

use text_bytes::{is_blank, is_digit, is_printable, is_word};

/// Whether it may stand between double quotes.
#[tactic(auto, unfolding(crate::specs::Bytes::may_be_quoted))]
fn may_be_quoted(b: u8) -> bool
    ensures { result ≡ may_be_quoted b }
{
    is_printable(b) && b != b'"'
}

/// Whether the text begins with this byte.
pub(crate) fn begins(text: &[u8], byte: u8) -> bool
    ensures { result ≡ begins byte text.now }
{
    match text {
        [b, ..] => *b == byte,
        _ => false,
    }
}

/// Whether the text begins with these two bytes.
pub(crate) fn begins_pair(text: &[u8], first: u8, second: u8) -> bool
    ensures { result ≡ begins_pair first second text.now }
{
    match text {
        [b, rest @ ..] => *b == first && begins(rest, second),
        _ => false,
    }
}

pub(crate) fn blanks_len(text: &[u8]) -> usize
    ensures len { result ≡ prefix_len is_blank text.now }
    ensures within { result ≤ length text.now }
{
    text.iter().take_while(|b| is_blank(**b)).count()
}

pub(crate) fn digits_len(text: &[u8]) -> usize
    ensures len { result ≡ prefix_len is_digit text.now }
    ensures within { result ≤ length text.now }
{
    text.iter().take_while(|b| is_digit(**b)).count()
}

pub(crate) fn word_len(text: &[u8]) -> usize
    ensures len { result ≡ prefix_len is_word text.now }
    ensures within { result ≤ length text.now }
{
    text.iter().take_while(|b| is_word(**b)).count()
}

pub(crate) fn quotable_len(text: &[u8]) -> usize
    ensures len { result ≡ prefix_len may_be_quoted text.now }
    ensures within { result ≤ length text.now }
{
    text.iter().take_while(|b| may_be_quoted(**b)).count()
}
