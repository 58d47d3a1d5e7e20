//! Keywords and names at the front of a head.

ghost use Rattle.std.specs.Prelude.{◌≡◌, MatchOption, None, Some};
ghost use Rattle.text_bytes.specs.Bytes.{begins_name, begins_with};
ghost use Rattle.stil_form.specs.Lexeme.{lexeme_of};
ghost use Rattle.stil_form.specs.Words.{is_keyword, named_by, fits_name};

use crate::part::Part;
use text_bytes::{LONGEST_NAME, all_printable};

/// Whether a part is the word of these bytes.
pub fn is_word(part: &Part, bytes: &[u8]) -> bool
    ensures { result ≡ is_keyword bytes.now (lexeme_of part.now) }
{
    match part {
        Part::Word(word) => *word == bytes,
        _ => false,
    }
}

/// Whether a word begins as a name does.
fn begins_name(word: &[u8]) -> bool
    ensures { result ≡ begins_with begins_name word.now }
{
    match word {
        [] => false,
        [byte, ..] => text_bytes::begins_name(*byte),
    }
}

/// The name that a part is: a Word that begins with a letter or `_`, or what stands in double quotes, of 1 to 1,024
/// bytes from 0x20 to 0x7E.
pub fn name_of<'a>(part: &Part<'a>) -> Option<&'a [u8]>
    ensures { MatchOption result (named_by (lexeme_of part.now) ≡ None)
        (λ bytes. named_by (lexeme_of part.now) ≡ Some bytes.now) }
{
    match *part {
        Part::Word(word) if begins_name(word) && fits_name(word) => Some(word),
        Part::Name(name) if fits_name(name) => Some(name),
        _ => None,
    }
}

/// Whether these are 1 to 1,024 bytes from 0x20 to 0x7E.
fn fits_name(name: &[u8]) -> bool
    ensures { result ≡ fits_name name.now }
{
    !name.is_empty() && name.len() <= LONGEST_NAME && all_printable(name)
}
