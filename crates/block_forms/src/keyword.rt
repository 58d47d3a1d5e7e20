//! Keywords by their tables.

ghost use Rattle.std.specs.Prelude.{◌≡◌, map};
ghost use Rattle.std.specs.List.{find};
ghost use Rattle.std.specs.Option.{option_copied};
ghost use Rattle.stil_form.specs.Words.{is_keyword};
ghost use Rattle.stil_form.specs.Lexeme.{lexeme_of, lexemes};
ghost use Rattle.block_forms.specs.Keywords.{meaning, first_meaning, only_meaning};

use crate::head::only_part;
use stil_form::{Part, Source, first_part, is_word};

/// The row of a part's word.
fn row_of<'w, 'a, K: Copy>(words: &'w [(&'a [u8], K)], part: &Part) -> Option<&'w (&'a [u8], K)>
    ensures { option_copied result ≡ find (λ row. is_keyword row.0.now (lexeme_of part.now)) words.now }
{
    words.iter().find(|row| is_word(part, row.0))
}

/// What a part stands for by a table of words.
pub fn keyword_in<K: Copy>(words: &[(&[u8], K)], part: &Part) -> Option<K>
    ensures { result ≡ meaning (map (λ row. (row.0.now, row.1)) words.now) (lexeme_of part.now) }
{
    match row_of(words, part) {
        Some(row) => Some(row.1),
        None => None,
    }
}

/// What the first part of a head stands for.
pub fn first_keyword<K: Copy>(words: &[(&[u8], K)], head: Source) -> Option<K>
    ensures { result ≡ first_meaning (map (λ row. (row.0.now, row.1)) words.now) (lexemes head.entry) }
{
    let (first, _) = first_part(head)?;
    keyword_in(words, &first)
}

/// What the one part of a head stands for, if there is just one.
pub fn only_keyword<K: Copy>(words: &[(&[u8], K)], head: Source) -> Option<K>
    ensures { result ≡ only_meaning (map (λ row. (row.0.now, row.1)) words.now) (lexemes head.entry) }
{
    let only = only_part(head)?;
    keyword_in(words, &only)
}
