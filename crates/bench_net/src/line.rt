//! One line of a text as what it says.
ghost use Rattle.std.specs.Prelude.{◌≡◌, ◌==◌, ℕ, ◌||◌, ◌≤◌, Some, None, List, ◌∷◌, map, length, take, drop, IfOk, MatchOption};
ghost use Rattle.std.specs.Option.{option_map};
ghost use Rattle.bench_net.specs.Line.{is_gap, is_name_byte, is_net, Lexeme, word, Spells, Says, Form};
ghost use Rattle.bench_net.specs.Step.{skipped, name_len, delimiter_step, front_step, enclosed_of, pins_read, call_of, declared_of, after_word, led_of, line_of};
ghost use Rattle.bench_net.specs.Views.{lexeme_of, delimiter_part, step_of_front, texts, form_of};

use crate::gate::{Function, function_of, is_word};
use std::alloc::{AllocError, Global};
use text_bytes::LONGEST_NAME;

/// What stands between the words of a line.
#[derive(Debug, Clone, Copy, PartialEq, Eq)]
pub(crate) enum Delimiter {
    Open,
    Close,
    Comma,
    Equals,
}

/// A part of a line.
#[derive(Clone, Copy)]
pub(crate) enum Part<'a> {
    Word(&'a [u8]),
    Delimiter(Delimiter),
}

/// What stands at the front of a text: nothing more, no part, or a part with the rest.
pub(crate) enum Front<'a> {
    Ends,
    Bad,
    Begins(Part<'a>, &'a [u8]),
}

/// What a line says.
#[derive(Drop)]
pub(crate) enum Line<'a> {
    Nothing,
    Input(&'a [u8]),
    Output(&'a [u8]),
    Gate(&'a [u8], Function, Vec<&'a [u8]>),
}

/// Whether it parts words: a space or a tab.
fn is_gap(byte: u8) -> bool
    ensures { result ≡ is_gap byte }
{
    byte == b' ' || byte == b'\t'
}

/// Whether a byte of names.
fn is_name_byte(byte: u8) -> bool
    ensures { result ≡ is_name_byte byte }
{
    (33..=126).contains(&byte) && !matches!(byte, b'(' | b')' | b',' | b'=' | b'#')
}

/// The text without the spaces and tabs in front.
fn skip_gap(text: &[u8]) -> &[u8]
    ensures { result.now ≡ skipped text.now }
{
    let mut rest = text;
    while let [first, more @ ..] = rest {
        if !is_gap(*first) {
            break;
        }
        rest = more;
    }
    rest
}

/// How many name bytes stand in front.
fn name_len(text: &[u8]) -> usize
    ensures len { result ≡ name_len text.now }
    ensures within { result ≤ length text.now }
{
    let mut len = 0;
    let mut rest = text;
    while let [first, more @ ..] = rest {
        if !is_name_byte(*first) {
            break;
        }
        len += 1;
        rest = more;
    }
    len
}

/// The name bytes in front, and the rest.
fn split_name(text: &[u8]) -> (&[u8], &[u8])
    ensures name { result.0.now ≡ take (name_len text.now) text.now }
    ensures rest { result.1.now ≡ drop (name_len text.now) text.now }
{
    text.split_at(name_len(text))
}

/// What a byte that begins no name says, with the text behind it.
fn front_at_delimiter(first: u8, rest: &[u8]) -> Front<'_>
    ensures { step_of_front result ≡ delimiter_step first rest.now }
{
    match first {
        b'#' => Front::Ends,
        b'(' => Front::Begins(Part::Delimiter(Delimiter::Open), rest),
        b')' => Front::Begins(Part::Delimiter(Delimiter::Close), rest),
        b',' => Front::Begins(Part::Delimiter(Delimiter::Comma), rest),
        b'=' => Front::Begins(Part::Delimiter(Delimiter::Equals), rest),
        _ => Front::Bad,
    }
}

/// What stands at the front of a text that begins with no space and no tab.
fn front_of(text: &[u8]) -> Front<'_>
    ensures { step_of_front result ≡ front_step text.now }
{
    match text {
        [] => Front::Ends,
        [first, rest @ ..] => {
            if is_name_byte(*first) {
                let (name, rest) = split_name(text);
                Front::Begins(Part::Word(name), rest)
            } else {
                front_at_delimiter(*first, rest)
            }
        }
    }
}

/// Whether a name is short enough for a net.
fn is_net(name: &[u8]) -> bool
    ensures { result ≡ is_net name.now }
{
    name.len() <= LONGEST_NAME
}

/// The parts of a line, or `None` where it isn't made of parts.
fn parts<'a>(alloc: Global, line: &'a [u8]) -> Result<Option<Vec<Part<'a>>>, AllocError>
    ensures parts { IfOk result (λ found. MatchOption found ((ps : List Lexeme) → Spells ps line.now
        → ⊥) (λ v. Spells (map lexeme_of v.items) line.now)) }
{
    let mut parts = Vec::new(alloc);
    let mut rest = line;
    loop {
        match front_of(skip_gap(rest)) {
            Front::Ends => return Ok(Some(parts)),
            Front::Bad => return Ok(None),
            Front::Begins(part, more) => {
                parts.push(part)?;
                rest = more;
            }
        }
    }
}

/// The net in parentheses, behind the opening one.
fn enclosed<'a>(parts: &[Part<'a>]) -> Option<&'a [u8]>
    ensures { option_map (λ n. n.now) result ≡ enclosed_of (map lexeme_of parts.now) }
{
    match parts {
        [Part::Word(name), Part::Delimiter(delimiter), rest @ ..] => closed(name, *delimiter, rest),
        _ => None,
    }
}

/// The net, where these are the closing parenthesis and nothing more.
fn closed<'a>(name: &'a [u8], delimiter: Delimiter, rest: &[Part<'a>]) -> Option<&'a [u8]>
    ensures { option_map (λ n. n.now) result
        ≡ enclosed_of (word name.now ∷ delimiter_part delimiter ∷ map lexeme_of rest.now) }
{
    match delimiter {
        Delimiter::Close if rest.is_empty() && is_net(name) => Some(name),
        _ => None,
    }
}

/// The nets of a list, behind the opening parenthesis.
fn pins<'a>(alloc: Global, parts: &[Part<'a>]) -> Result<Option<Vec<&'a [u8]>>, AllocError>
    ensures { IfOk result (λ found. option_map (λ v. texts v.items) found
        ≡ pins_read (map lexeme_of parts.now)) }
{
    let mut pins = Vec::new(alloc);
    let mut rest = parts;
    while let [Part::Word(pin), Part::Delimiter(delimiter), more @ ..] = rest {
        if !is_net(pin) {
            return Ok(None);
        }
        pins.push(*pin)?;
        match delimiter {
            Delimiter::Comma => rest = more,
            Delimiter::Close if more.is_empty() => return Ok(Some(pins)),
            _ => return Ok(None),
        }
    }
    Ok(None)
}

/// What stands behind `net =`.
fn call<'a>(
    alloc: Global,
    net: &'a [u8],
    parts: &[Part<'a>],
) -> Result<Option<Line<'a>>, AllocError>
    ensures { IfOk result (λ found. option_map form_of found ≡ call_of net.now (map lexeme_of parts.now)) }
{
    let [
        Part::Word(word),
        Part::Delimiter(Delimiter::Open),
        rest @ ..,
    ] = parts
    else {
        return Ok(None);
    };
    let Some(function) = function_of(word) else {
        return Ok(None);
    };
    match pins(alloc, rest)? {
        Some(pins) => Ok(Some(Line::Gate(net, function, pins))),
        None => Ok(None),
    }
}

/// What stands behind `INPUT(` or `OUTPUT(`.
fn declared<'a>(word: &[u8], parts: &[Part<'a>]) -> Option<Line<'a>>
    ensures { option_map form_of result ≡ declared_of word.now (map lexeme_of parts.now) }
{
    if is_word(word, b"INPUT") {
        Some(Line::Input(enclosed(parts)?))
    } else if is_word(word, b"OUTPUT") {
        Some(Line::Output(enclosed(parts)?))
    } else {
        None
    }
}

/// What stands behind the first word and a delimiter.
fn behind<'a>(
    alloc: Global,
    word: &'a [u8],
    delimiter: Delimiter,
    rest: &[Part<'a>],
) -> Result<Option<Line<'a>>, AllocError>
    ensures { IfOk result (λ found. option_map form_of found
        ≡ after_word word.now (delimiter_part delimiter ∷ map lexeme_of rest.now)) }
{
    match delimiter {
        Delimiter::Open => Ok(declared(word, rest)),
        Delimiter::Equals if is_net(word) => call(alloc, word, rest),
        _ => Ok(None),
    }
}

/// What the parts of a line that isn't empty say.
fn led<'a>(alloc: Global, parts: &[Part<'a>]) -> Result<Option<Line<'a>>, AllocError>
    ensures { IfOk result (λ found. option_map form_of found ≡ led_of (map lexeme_of parts.now)) }
{
    match parts {
        [Part::Word(word), Part::Delimiter(delimiter), rest @ ..] => behind(
            alloc, word, *delimiter, rest,
        ),
        _ => Ok(None),
    }
}

/// What the parts of a line say.
fn said<'a>(alloc: Global, parts: &[Part<'a>]) -> Result<Option<Line<'a>>, AllocError>
    ensures { IfOk result (λ found. option_map form_of found ≡ line_of (map lexeme_of parts.now)) }
{
    match parts {
        [] => Ok(Some(Line::Nothing)),
        _ => led(alloc, parts),
    }
}

/// What a line says, or `None` where it has no form of a line.
pub(crate) fn read_line<'a>(alloc: Global, line: &'a [u8]) -> Result<Option<Line<'a>>, AllocError>
    ensures { IfOk result (λ found. MatchOption found ((f : Form) → Says line.now f
        → ⊥) (λ l. Says line.now (form_of l))) }
{
    match parts(alloc, line)? {
        Some(parts) => said(alloc, parts.as_slice()),
        None => Ok(None),
    }
}
