//! How many bytes of one class stand together at the front of a text.

ghost use Rattle.std.specs.Prelude.{◌≡◌, ◌≤◌, length, ◌==◌};
ghost use Rattle.std.specs.List.{prefix_len, position_or_len};
ghost use Rattle.stil_lex.specs.Bytes.{may_be_quoted, starts_pair};
ghost use Rattle.text_bytes.specs.Bytes.{is_blank, is_word, is_printing};
ghost use Rattle.stil_lex.specs.Step.{pair_place};

use text_bytes::{is_blank, is_printable, is_word};

/// Whether it may stand between quotes.
#[tactic(auto, unfolding(crate::specs::Bytes::may_be_quoted))]
pub(crate) fn may_be_quoted(b: u8) -> bool
    ensures { result ≡ may_be_quoted b }
{
    is_printable(b) || is_blank(b)
}

/// Whether the text begins with these two bytes.
pub(crate) fn starts_pair(text: &[u8], first: u8, second: u8) -> bool
    ensures { result ≡ starts_pair first second text.now }
{
    match text {
        [x, y, ..] => *x == first && *y == second,
        _ => false,
    }
}

/// How many bytes stand before the first such pair, or all.
pub(crate) fn pair_place(text: &[u8], first: u8, second: u8) -> usize
    ensures place { result ≡ pair_place first second text.now }
    ensures within { result ≤ length text.now }
{
    for at in 0..text.len() {
        if starts_pair(&text[at..], first, second) {
            return at;
        }
    }
    text.len()
}

/// How many bytes stand before the first `byte`, or all.
pub(crate) fn place_of(text: &[u8], byte: u8) -> usize
    ensures place { result ≡ position_or_len (λ b. b == byte) text.now }
    ensures within { result ≤ length text.now }
{
    text.iter().take_while(|b| **b != byte).count()
}

pub(crate) fn blanks_len(text: &[u8]) -> usize
    ensures len { result ≡ prefix_len is_blank text.now }
    ensures within { result ≤ length text.now }
{
    text.iter().take_while(|b| is_blank(**b)).count()
}

pub(crate) fn word_len(text: &[u8]) -> usize
    ensures { result ≡ prefix_len is_word text.now }
{
    text.iter().take_while(|b| is_word(**b)).count()
}

pub(crate) fn quotable_len(text: &[u8]) -> usize
    ensures { result ≡ prefix_len may_be_quoted text.now }
{
    text.iter().take_while(|b| may_be_quoted(**b)).count()
}
