//! The words of UserKeywords statements, which are looked up by hash.

ghost use Rattle.std.specs.Prelude.{◌≡◌, ◌||◌, ℕ, List, [], ◌∷◌, ◌++◌, IfOk, OnOk};
ghost use Rattle.std.specs.Borrow.{Bor};
ghost use Rattle.std.specs.List.{list_any};
ghost use Rattle.std.specs.Str.{bytes_eq};
ghost use Rattle.stil_form.specs.Lexeme.{lexemes};
ghost use Rattle.stil_form.specs.Reading.{is_skipped};
ghost use Rattle.text_bytes.specs.Texts.{is_among};
ghost use Rattle.indexmap.specs.IndexSet.{keys};
ghost use Rattle.stil_form.specs.Skipping.{is_listed, words_of};

use crate::part::Part;
use crate::source::{Source, first_part};
use indexmap::IndexSet;
use std::alloc::{AllocError, Global};
use std::marker::Model;
use tester_types::Text;

/// The most words that are looked through one after another, which takes less than an index.
const FEW: usize = 4;

/// Words in the order in which they were added: a statement that begins with one of them is skipped (IEEE 1450-1999,
/// clause 11).
#[derive(Drop)]
pub struct Words<'a> {
    words: Vec<&'a [u8]>,
    index: IndexSet<&'a [u8]>,
}

impl<'a> Model for Words<'a> {
    ghost use Rattle.std.specs.Prelude.{◌≡◌, ℕ, List, map};
    ghost use Rattle.std.specs.Borrow.{Bor};
    ghost use Rattle.text_bytes.specs.Texts.{is_among};
    ghost use Rattle.indexmap.specs.IndexSet.{keys};
    ghost use Rattle.stil_form.specs.Skipping.{is_listed, words_of};

    ghost Value = { List (List ℕ) };

    ghost view = { λ w. words_of w.words.items };

    ghost invariant = { λ w. (word : List ℕ) → is_among (keys w.index) word ≡ is_listed (words_of w.words.items) word };
}

impl<'a> Words<'a> {
    /// No words.
    pub fn new(alloc: Global) -> Words<'a>
        ensures { result ≡ [] }
    {
        Words {
            words: Vec::new(alloc),
            index: IndexSet::new(alloc),
        }
    }

    /// These words and one more.
    pub fn with(self, word: &'a [u8]) -> Result<Words<'a>, AllocError>
        ensures { IfOk result (λ words. words ≡ self.entry ++ word.now ∷ []) }
    {
        let Words {
            mut words,
            mut index,
        } = self;
        add_word(&mut index, word)?;
        words.push(word)?;
        Ok(Words { words, index })
    }

    /// The words of a list.
    pub fn of_list(alloc: Global, list: &'a [Text]) -> Result<Words<'a>, AllocError>
        ensures { IfOk result (λ words. words ≡ list.now) }
    {
        let mut words = Words::new(alloc);
        for word in list {
            words = words.with(word.as_slice())?;
        }
        Ok(words)
    }

    fn has(&self, word: &[u8]) -> bool
        ensures { result ≡ is_listed self.now word.now }
    {
        if self.words.len() <= FEW {
            return is_listed(self.words.as_slice(), word);
        }
        is_kept(&self.index, word)
    }

    /// Whether a statement with this head is skipped: it begins with one of the words.
    pub fn skips(&self, head: Source) -> bool
        ensures { result ≡ is_skipped self.now (lexemes head.entry) }
    {
        match first_part(head) {
            Some((Part::Word(word), _)) => self.has(word),
            _ => false,
        }
    }
}

fn has_word(words: &[&[u8]], word: &[u8]) -> bool
    ensures { result ≡ list_any (λ (listed : Bor (List ℕ)). bytes_eq listed.now word.now) words.now }
{
    words.iter().any(|listed| *listed == word)
}

fn is_listed(words: &[&[u8]], word: &[u8]) -> bool
    ensures { result ≡ is_listed (words_of words.now) word.now }
{
    has_word(words, word)
}

fn is_kept(index: &IndexSet<&[u8]>, word: &[u8]) -> bool
    ensures { result ≡ is_among (keys index.now) word.now }
{
    index.contains(word)
}

fn add_word<'a>(index: &mut IndexSet<&'a [u8]>, word: &'a [u8]) -> Result<(), AllocError>
    ensures { OnOk result ((other : List ℕ) →
        is_among (keys index.new) other ≡ (is_among (keys index.old) other || bytes_eq word.now other)) }
{
    index.insert(word)?;
    Ok(())
}
