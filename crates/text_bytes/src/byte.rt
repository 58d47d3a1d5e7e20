//! Classes of bytes, in ASCII.

ghost use Rattle.std.specs.Prelude.{◌≡◌, ◌==◌, count_by};
ghost use Rattle.std.specs.List.{list_all};
ghost use Rattle.text_bytes.specs.Bytes.{is_blank, is_digit, begins_name, is_word, is_character, is_printing, is_printable};

/// Whether it is a space, tab, line feed, form feed or carriage return.
#[tactic(auto, unfolding(crate::specs::Bytes::is_blank))]
pub fn is_blank(b: u8) -> bool
    ensures { result ≡ is_blank b }
{
    b.is_ascii_whitespace()
}

/// Whether it is `0` to `9`.
#[tactic(auto, unfolding(crate::specs::Bytes::is_digit))]
pub fn is_digit(b: u8) -> bool
    ensures { result ≡ is_digit b }
{
    b.is_ascii_digit()
}

/// Whether it is a letter or `_`.
#[tactic(auto, unfolding(crate::specs::Bytes::begins_name))]
pub fn begins_name(b: u8) -> bool
    ensures { result ≡ begins_name b }
{
    b.is_ascii_alphabetic() || b == b'_'
}

/// Whether it is a waveform character: a letter or a digit.
#[tactic(auto, unfolding(crate::specs::Bytes::is_character))]
pub fn is_character(b: u8) -> bool
    ensures { result ≡ is_character b }
{
    b.is_ascii_alphanumeric()
}

/// 1 at each byte that a word may hold, else 0.
#[rattlefmt::skip]
static WORD_BYTES: [u8; 256] = [
    0, 0, 0, 0, 0, 0, 0, 0, 0, 0, 0, 0, 0, 0, 0, 0, 0, 0, 0, 0, 0, 0, 0, 0, 0, 0, 0, 0, 0, 0, 0, 0,
    0, 0, 0, 0, 0, 0, 0, 0, 0, 0, 0, 0, 0, 0, 0, 0, 1, 1, 1, 1, 1, 1, 1, 1, 1, 1, 0, 0, 0, 0, 0, 0,
    0, 1, 1, 1, 1, 1, 1, 1, 1, 1, 1, 1, 1, 1, 1, 1, 1, 1, 1, 1, 1, 1, 1, 1, 1, 1, 1, 0, 0, 0, 0, 1,
    0, 1, 1, 1, 1, 1, 1, 1, 1, 1, 1, 1, 1, 1, 1, 1, 1, 1, 1, 1, 1, 1, 1, 1, 1, 1, 1, 0, 0, 0, 0, 0,
    0, 0, 0, 0, 0, 0, 0, 0, 0, 0, 0, 0, 0, 0, 0, 0, 0, 0, 0, 0, 0, 0, 0, 0, 0, 0, 0, 0, 0, 0, 0, 0,
    0, 0, 0, 0, 0, 0, 0, 0, 0, 0, 0, 0, 0, 0, 0, 0, 0, 0, 0, 0, 0, 0, 0, 0, 0, 0, 0, 0, 0, 0, 0, 0,
    0, 0, 0, 0, 0, 0, 0, 0, 0, 0, 0, 0, 0, 0, 0, 0, 0, 0, 0, 0, 0, 0, 0, 0, 0, 0, 0, 0, 0, 0, 0, 0,
    0, 0, 0, 0, 0, 0, 0, 0, 0, 0, 0, 0, 0, 0, 0, 0, 0, 0, 0, 0, 0, 0, 0, 0, 0, 0, 0, 0, 0, 0, 0, 0,
];

/// Whether it is a letter, a digit or `_`.
#[inline(always)]
pub fn is_word(b: u8) -> bool
    ensures { result ≡ is_word b }
{
    WORD_BYTES[usize::from(b)] == 1
}

/// Whether it shows in print: 0x21 to 0x7E.
#[tactic(auto, unfolding(crate::specs::Bytes::is_printing))]
pub fn is_printing(b: u8) -> bool
    ensures { result ≡ is_printing b }
{
    b.is_ascii_graphic()
}

/// Whether a name may hold it: 0x20 to 0x7E.
#[tactic(auto, unfolding(crate::specs::Bytes::is_printable))]
pub fn is_printable(b: u8) -> bool
    ensures { result ≡ is_printable b }
{
    b.is_ascii_graphic() || b == b' '
}

/// Whether each byte is a digit.
pub fn all_digits(text: &[u8]) -> bool
    ensures { result ≡ list_all is_digit text.now }
{
    text.iter().all(|b| is_digit(*b))
}

/// Whether a name may hold each byte.
pub fn all_printable(text: &[u8]) -> bool
    ensures { result ≡ list_all is_printable text.now }
{
    text.iter().all(|b| is_printable(*b))
}

/// Whether a word may hold each byte.
pub fn all_words(text: &[u8]) -> bool
    ensures { result ≡ list_all is_word text.now }
{
    text.iter().all(|b| is_word(*b))
}

/// How many line feeds stand in the text.
pub fn line_feeds(text: &[u8]) -> usize
    ensures { result ≡ count_by (λ b. b == 10) text.now }
{
    match text {
        [byte] => usize::from(*byte == b'\n'),
        _ => text.iter().filter(|b| **b == b'\n').count(),
    }
}
