//! The items of a group's text (IEEE 1450-1999, clause 6, signal references).

ghost use Rattle.std.specs.Prelude.{◌≡◌, if◌then◌else◌, nat_le, ◌∷◌, Option, Bool, ◌<◌, ◌≤◌, ◌+◌, ◌-◌, ◌++◌, ◌&&◌, true, false, [], List, ℕ, map, length, slice_range, Some, None, IfOk, OnOk};
ghost use Rattle.std.specs.Option.{option_map};
ghost use Rattle.stil_ast.specs.Data.Texts.{number_of as spelled, index_of, is_name, is_bare_name};
ghost use Rattle.stil_ast.specs.Meaning.GroupText.{Term, dot, item_name, item_index, range_to, range_from, range_behind, item_of};
ghost use Rattle.stil_ast.specs.Meaning.GroupReading.{terms_of, terms_from, with_item};
ghost use Rattle.signal_groups.specs.Lexed.{lexeme_of, name_ref, term_of, behind, left_of, held_terms, IsSign};

use crate::lexeme::{Lexeme, lexemes};
use std::alloc::{AllocError, Global};
use stil_ast::IndexRange;
use text_bytes::{LONGEST_NAME, all_digits, all_printable, begins_name, number_of};

/// A name, with indices or without.
#[derive(Clone, Copy)]
pub(crate) struct Item<'a> {
    pub(crate) name: &'a [u8],
    pub(crate) range: Option<IndexRange>,
}

/// An item, and whether its signals are added or removed.
#[derive(Clone, Copy)]
pub(crate) struct HeldTerm<'a> {
    pub(crate) adds: bool,
    pub(crate) item: Item<'a>,
}

/// Whether this can be a name in quotes.
#[tactic(auto, using(crate::proofs::LexedLemmas::is_name_some))]
fn is_name(name: &[u8]) -> bool
    ensures { result ≡ is_name name.now }
{
    match name {
        [] => false,
        [_, ..] => name.len() <= LONGEST_NAME && all_printable(name),
    }
}

/// Whether this can be a name without quotes.
#[tactic(auto, using(crate::proofs::LexedLemmas::is_bare_name_some))]
fn is_bare_name(name: &[u8]) -> bool
    ensures { result ≡ is_bare_name name.now }
{
    match name {
        [] => false,
        [first, ..] => begins_name(*first) && is_name(name),
    }
}

/// The number of digits, unless it is beyond 2^32 - 1.
fn short_number(digits: &[u8]) -> Option<u32>
    ensures { result ≡ (if nat_le (spelled digits.now) 4294967295 then Some (spelled digits.now) else None) }
{
    let number = number_of(digits);
    if number <= 4_294_967_295 {
        Some(number as u32)
    } else {
        None
    }
}

/// The index that digits are.
fn index_of(digits: &[u8]) -> Option<u32>
    ensures { result ≡ index_of digits.now }
{
    if all_digits(digits) {
        short_number(digits)
    } else {
        None
    }
}

/// The name that a lexeme is.
fn item_name<'a>(lexeme: &Lexeme<'a>) -> Option<&'a [u8]>
    ensures { option_map (λ n. n.now) result ≡ item_name (lexeme_of lexeme.now) }
{
    match *lexeme {
        Lexeme::Word(word) if is_bare_name(word) => Some(word),
        Lexeme::Quoted(name) if is_name(name) => Some(name),
        _ => None,
    }
}

/// The index that a lexeme is.
fn item_index(lexeme: &Lexeme) -> Option<u32>
    ensures { result ≡ item_index (lexeme_of lexeme.now) }
{
    match *lexeme {
        Lexeme::Word(word) => index_of(word),
        _ => None,
    }
}

/// Both indices of a range, where both are indices.
fn range_to(first: Option<u32>, last: Option<u32>) -> Option<IndexRange>
    ensures { option_map (λ r. Some r) result ≡ range_to first last }
{
    let first = first?;
    let last = last?;
    Some(IndexRange { first, last })
}

/// What stands behind `[` and a first index.
fn range_from(first: &Lexeme, rest: &[Lexeme]) -> Option<IndexRange>
    ensures { option_map (λ r. Some r) result ≡ range_from (lexeme_of first.now) (map lexeme_of rest.now) }
{
    match rest {
        [Lexeme::Closes] => range_to(item_index(first), item_index(first)),
        [Lexeme::Dot, Lexeme::Dot, rest @ ..] => last_of(first, rest),
        _ => None,
    }
}

/// The last index and `]` behind two dots.
fn last_of(first: &Lexeme, rest: &[Lexeme]) -> Option<IndexRange>
    ensures { option_map (λ r. Some r) result
        ≡ range_from (lexeme_of first.now) (dot ∷ dot ∷ map lexeme_of rest.now) }
{
    match rest {
        [last, Lexeme::Closes] => range_to(item_index(first), item_index(last)),
        _ => None,
    }
}

/// What stands behind a name: nothing, or indices.
fn range_behind(rest: &[Lexeme]) -> Option<Option<IndexRange>>
    ensures { result ≡ range_behind (map lexeme_of rest.now) }
{
    match rest {
        [] => Some(None),
        [Lexeme::Opens, first, rest @ ..] => {
            let range = range_from(first, rest)?;
            Some(Some(range))
        }
        _ => None,
    }
}

/// The item that lexemes are.
fn item_of<'a>(lexemes: &[Lexeme<'a>]) -> Option<Item<'a>>
    ensures { option_map name_ref result ≡ item_of (map lexeme_of lexemes.now) }
{
    match lexemes {
        [] => None,
        [name, rest @ ..] => {
            let name = item_name(name)?;
            let range = range_behind(rest)?;
            Some(Item { name, range })
        }
    }
}

/// How far the items of a text are read.
#[derive(Clone, Copy)]
struct Reading {
    /// Whether each item so far has its form.
    good: bool,
    /// Whether the next item is added.
    adds: bool,
    /// Where its first lexeme stands.
    start: usize,
}

/// Puts the item that lexemes are behind the others, if they are one.
fn add_item<'a>(
    terms: &mut Vec<HeldTerm<'a>>,
    adds: bool,
    lexemes: &[Lexeme<'a>],
) -> Result<bool, AllocError>
    ensures { IfOk result (λ good. (more : Option (List Term)) → (before : Bool)
        → behind (before && good) (map term_of terms.new.items) more
        ≡ behind before (map term_of terms.old.items) (with_item adds (item_of (map lexeme_of lexemes.now)) more)) }
{
    match item_of(lexemes) {
        Some(item) => {
            terms.push(HeldTerm { adds, item })?;
            Ok(true)
        }
        None => Ok(false),
    }
}

/// The sign `+` or `-` that a lexeme is.
fn sign_of(lexeme: &Lexeme) -> Option<bool>
    ensures { IsSign (lexeme_of lexeme.now) result }
{
    match *lexeme {
        Lexeme::Plus => Some(true),
        Lexeme::Minus => Some(false),
        _ => None,
    }
}

fn both(first: bool, second: bool) -> bool
    ensures { result ≡ (first && second) }
{
    first && second
}

/// Takes the lexeme at a place.
fn take<'a>(
    terms: &mut Vec<HeldTerm<'a>>,
    lexemes: &[Lexeme<'a>],
    at: usize,
    reading: Reading,
) -> Result<Reading, AllocError>
    requires at { at < length lexemes.now }
    requires start { reading.start ≤ at }
    ensures start { IfOk result (λ next. next.start ≤ at + 1) }
    ensures same { IfOk result (λ next.
        left_of (map term_of terms.new.items) (map lexeme_of lexemes.now) (at + 1) next
        ≡ left_of (map term_of terms.old.items) (map lexeme_of lexemes.now) at reading) }
{
    match sign_of(&lexemes[at]) {
        None => Ok(reading),
        Some(adds) => {
            let good = add_item(terms, reading.adds, &lexemes[reading.start..at])?;
            Ok(Reading {
                good: both(reading.good, good),
                adds,
                start: at + 1,
            })
        }
    }
}

/// The items of a text, if it is a group expression.
fn terms_in<'a>(
    alloc: Global,
    lexemes: &[Lexeme<'a>],
) -> Result<Option<Vec<HeldTerm<'a>>>, AllocError>
    ensures { IfOk result (λ terms. held_terms terms ≡ terms_from true [] (map lexeme_of lexemes.now)) }
{
    let mut terms = Vec::new(alloc);
    let mut reading = Reading {
        good: true,
        adds: true,
        start: 0,
    };
    for at in 0..lexemes.len() {
        reading = take(&mut terms, lexemes, at, reading)?;
    }
    let good = add_item(&mut terms, reading.adds, &lexemes[reading.start..])?;
    if both(reading.good, good) {
        Ok(Some(terms))
    } else {
        Ok(None)
    }
}

/// The items of a group's text, if it is a group expression.
pub(crate) fn terms_of(alloc: Global, text: &[u8]) -> Result<Option<Vec<HeldTerm<'_>>>, AllocError>
    ensures { IfOk result (λ terms. held_terms terms ≡ terms_of text.now) }
{
    let lexemes = lexemes(alloc, text)?;
    terms_in(alloc, lexemes.as_slice())
}
