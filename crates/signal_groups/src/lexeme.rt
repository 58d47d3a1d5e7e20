//! The lexemes of a group's text (IEEE 1450-1999, clause 6, signal references).

ghost use Rattle.std.specs.Prelude.{◌≡◌, ◌<◌, ◌≤◌, ◌+◌, ◌++◌, [], List, ℕ, map, length, slice_index, slice_range, IfOk, OnOk};
ghost use Rattle.stil_ast.specs.Meaning.GroupReading.{kind_of, sign_of, begun_by, ended_by, completed, behind_kind, behind_byte, lexemes, at_end, between};
ghost use Rattle.signal_groups.specs.Lexed.{kind_in, lexeme_of, place_at, IsBehind};

use std::alloc::{AllocError, Global};
use text_bytes::{is_blank, is_word};

/// What a byte is outside of quotes.
#[derive(Clone, Copy)]
pub(crate) enum ByteKind {
    Word,
    Quote,
    Blank,
    Sign,
}

/// What a group's text is a sequence of, where blanks are left out.
#[derive(Clone, Copy)]
pub(crate) enum Lexeme<'a> {
    Word(&'a [u8]),
    Quoted(&'a [u8]),
    Plus,
    Minus,
    Opens,
    Closes,
    Dot,
    Stray,
}

/// Where a byte stands: between lexemes, or in a word or a quoted name that began at a place.
#[derive(Clone, Copy)]
pub(crate) enum Place {
    Between,
    InWord(usize),
    InQuotes(usize),
}

fn kind_of(byte: u8) -> ByteKind
    ensures { kind_in result ≡ kind_of byte }
{
    if is_word(byte) {
        return ByteKind::Word;
    }
    if byte == b'"' {
        return ByteKind::Quote;
    }
    if is_blank(byte) {
        return ByteKind::Blank;
    }
    ByteKind::Sign
}

/// The lexeme of a sign.
fn sign_of<'a>(byte: u8) -> Lexeme<'a>
    ensures { lexeme_of result ≡ sign_of byte }
{
    match byte {
        b'+' => Lexeme::Plus,
        b'-' => Lexeme::Minus,
        b'[' => Lexeme::Opens,
        b']' => Lexeme::Closes,
        b'.' => Lexeme::Dot,
        _ => Lexeme::Stray,
    }
}

/// Takes the byte at a place between lexemes.
fn begin(found: &mut Vec<Lexeme<'_>>, text: &[u8], at: usize) -> Result<Place, AllocError>
    requires { at < length text.now }
    ensures found { OnOk result (map lexeme_of found.new.items
        ≡ map lexeme_of found.old.items ++ begun_by (kind_of (slice_index text.now at)) (slice_index text.now at)) }
    ensures next { IfOk result (λ next. place_at text.now (at + 1) next
        ≡ behind_kind [] (kind_of (slice_index text.now at)) (slice_index text.now at)) }
    ensures behind { IfOk result (λ next. IsBehind (at + 1) next) }
{
    match kind_of(text[at]) {
        ByteKind::Word => Ok(Place::InWord(at)),
        ByteKind::Quote => Ok(Place::InQuotes(at + 1)),
        ByteKind::Blank => Ok(Place::Between),
        ByteKind::Sign => {
            found.push(sign_of(text[at]))?;
            Ok(Place::Between)
        }
    }
}

/// Takes the byte at a place behind a word that began at `start`.
fn go_on<'a>(
    found: &mut Vec<Lexeme<'a>>,
    text: &'a [u8],
    start: usize,
    at: usize,
) -> Result<Place, AllocError>
    requires at { at < length text.now }
    requires start { start ≤ at }
    ensures found { OnOk result (map lexeme_of found.new.items
        ≡ map lexeme_of found.old.items
        ++ ended_by (slice_range text.now start at) (kind_of (slice_index text.now at)) (slice_index text.now at)) }
    ensures next { IfOk result (λ next. place_at text.now (at + 1) next
        ≡ behind_kind (slice_range text.now start at) (kind_of (slice_index text.now at)) (slice_index text.now at)) }
    ensures behind { IfOk result (λ next. IsBehind (at + 1) next) }
{
    match kind_of(text[at]) {
        ByteKind::Word => Ok(Place::InWord(start)),
        _ => {
            found.push(Lexeme::Word(&text[start..at]))?;
            begin(found, text, at)
        }
    }
}

/// Takes the byte at a place behind a quote, of which the next byte stands at `start`.
fn go_on_quoted<'a>(
    found: &mut Vec<Lexeme<'a>>,
    text: &'a [u8],
    start: usize,
    at: usize,
) -> Result<Place, AllocError>
    requires at { at < length text.now }
    requires start { start ≤ at }
    ensures found { OnOk result (map lexeme_of found.new.items
        ≡ map lexeme_of found.old.items
        ++ completed (place_at text.now at (Place.InQuotes start)) (slice_index text.now at)) }
    ensures next { IfOk result (λ next. place_at text.now (at + 1) next
        ≡ behind_byte (place_at text.now at (Place.InQuotes start)) (slice_index text.now at)) }
    ensures behind { IfOk result (λ next. IsBehind (at + 1) next) }
{
    if text[at] == b'"' {
        found.push(Lexeme::Quoted(&text[start..at]))?;
        return Ok(Place::Between);
    }
    Ok(Place::InQuotes(start))
}

/// Takes the byte at a place.
fn take<'a>(
    found: &mut Vec<Lexeme<'a>>,
    text: &'a [u8],
    at: usize,
    place: Place,
) -> Result<Place, AllocError>
    requires at { at < length text.now }
    requires behind { IsBehind at place }
    ensures found { OnOk result (map lexeme_of found.new.items
        ≡ map lexeme_of found.old.items ++ completed (place_at text.now at place) (slice_index text.now at)) }
    ensures next { IfOk result (λ next. place_at text.now (at + 1) next
        ≡ behind_byte (place_at text.now at place) (slice_index text.now at)) }
    ensures behind { IfOk result (λ next. IsBehind (at + 1) next) }
{
    match place {
        Place::Between => begin(found, text, at),
        Place::InWord(start) => go_on(found, text, start, at),
        Place::InQuotes(start) => go_on_quoted(found, text, start, at),
    }
}

/// Takes the end of a text.
fn end<'a>(found: &mut Vec<Lexeme<'a>>, text: &'a [u8], place: Place) -> Result<(), AllocError>
    requires { IsBehind (length text.now) place }
    ensures { OnOk result (map lexeme_of found.new.items
        ≡ map lexeme_of found.old.items ++ at_end (place_at text.now (length text.now) place)) }
{
    match place {
        Place::Between => {}
        Place::InWord(start) => found.push(Lexeme::Word(&text[start..text.len()]))?,
        Place::InQuotes(_) => found.push(Lexeme::Stray)?,
    }
    Ok(())
}

/// The lexemes of a text.
pub(crate) fn lexemes(alloc: Global, text: &[u8]) -> Result<Vec<Lexeme<'_>>, AllocError>
    ensures { IfOk result (λ found. map lexeme_of found.items ≡ lexemes between text.now) }
{
    let mut found = Vec::new(alloc);
    let mut place = Place::Between;
    for at in 0..text.len() {
        place = take(&mut found, text, at, place)?;
    }
    end(&mut found, text, place)?;
    Ok(found)
}
