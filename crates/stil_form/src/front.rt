//! Indices and references to signals at the front of a head (IEEE 1450-1999, signal references).

ghost use Rattle.std.specs.Prelude.{◌≡◌, ℕ, List, Option, Some, None, MatchOption};
ghost use Rattle.stil_form.specs.Lexeme.{Lexeme, lexeme_of, lexemes};
ghost use Rattle.stil_form.specs.Words.{named_by};
ghost use Rattle.stil_form.specs.Fronts.{index_by, last_front, behind_first, opened_front, index_front, ref_of, behind_name, reference_front, indices_of};

use crate::part::{Part, SignKind};
use crate::source::{Source, first_part};
use crate::word::name_of;
use text_bytes::number_by;

/// The indices of `[first..last]`, upwards or downwards; `[n]` has n for both. A number beyond 2^64 - 1 is read as that.
#[derive(Clone, Copy, Debug, PartialEq, Eq)]
pub struct Span {
    pub first: u64,
    pub last: u64,
}

/// A reference to signals, as it is written.
#[derive(Clone, Copy, Debug)]
pub enum Reference<'a> {
    /// A name, with indices in brackets or without.
    Name(&'a [u8], Option<Span>),
    /// What stood in single quotes; it is to be a group expression.
    Group(&'a [u8]),
}

impl Span {
    /// The two indices; none where one is beyond 2^32 - 1.
    pub fn indices(self) -> Option<(u32, u32)>
        ensures { result ≡ indices_of self }
    {
        if self.first <= u64::from(u32::MAX) && self.last <= u64::from(u32::MAX) {
            Some((self.first as u32, self.last as u32))
        } else {
            None
        }
    }
}

/// The number that a word of digits is.
fn index_of(part: &Part) -> Option<u64>
    ensures { result ≡ index_by (lexeme_of part.now) }
{
    match *part {
        Part::Word(digits) => number_by(digits),
        _ => None,
    }
}

/// The last index and its `]`, and what stands behind them.
fn last_front<'a>(first: u64, source: Source<'a>) -> Option<(Span, Source<'a>)>
    ensures { MatchOption result (last_front first (lexemes source.entry) ≡ None)
        (λ found. last_front first (lexemes source.entry) ≡ Some (found.0, lexemes found.1)) }
{
    let (last, rest) = first_part(source)?;
    match first_part(rest) {
        Some((Part::Sign(SignKind::Close), rest)) => {
            let last = index_of(&last)?;
            Some((Span { first, last }, rest))
        }
        _ => None,
    }
}

/// What stands behind the first index: `]`, or two dots and the last index; and what stands behind them.
fn behind_first<'a>(source: Source<'a>, first: u64) -> Option<(Span, Source<'a>)>
    ensures { MatchOption result (behind_first (lexemes source.entry) first ≡ None)
        (λ found. behind_first (lexemes source.entry) first ≡ Some (found.0, lexemes found.1)) }
{
    match first_part(source) {
        Some((Part::Sign(SignKind::Close), rest)) => Some((Span { first, last: first }, rest)),
        Some((Part::Sign(SignKind::Dot), rest)) => match first_part(rest) {
            Some((Part::Sign(SignKind::Dot), rest)) => last_front(first, rest),
            _ => None,
        },
        _ => None,
    }
}

/// Indices behind their `[`, and what stands behind them.
fn opened_front<'a>(source: Source<'a>) -> Option<(Span, Source<'a>)>
    ensures { MatchOption result (opened_front (lexemes source.entry) ≡ None)
        (λ found. opened_front (lexemes source.entry) ≡ Some (found.0, lexemes found.1)) }
{
    let (first, rest) = first_part(source)?;
    behind_first(rest, index_of(&first)?)
}

/// The indices in brackets that stand first, and what stands behind them; none where something else stands first.
pub fn index_front<'a>(source: Source<'a>) -> Option<(Span, Source<'a>)>
    ensures { MatchOption result (index_front (lexemes source.entry) ≡ None)
        (λ found. index_front (lexemes source.entry) ≡ Some (found.0, lexemes found.1)) }
{
    match first_part(source) {
        Some((Part::Sign(SignKind::Open), rest)) => opened_front(rest),
        _ => None,
    }
}

/// A reference that begins with this name, and what stands behind it.
fn behind_name<'a>(source: Source<'a>, called: &'a [u8]) -> Option<(Reference<'a>, Source<'a>)>
    ensures { MatchOption result (behind_name (lexemes source.entry) called.now ≡ None)
        (λ found. behind_name (lexemes source.entry) called.now ≡ Some (ref_of found.0, lexemes found.1)) }
{
    match first_part(source) {
        Some((Part::Sign(SignKind::Open), rest)) => {
            let (span, rest) = opened_front(rest)?;
            Some((Reference::Name(called, Some(span)), rest))
        }
        _ => Some((Reference::Name(called, None), source)),
    }
}

/// The reference that stands first, and what stands behind it; none where something else stands first.
pub fn reference_front<'a>(source: Source<'a>) -> Option<(Reference<'a>, Source<'a>)>
    ensures { MatchOption result (reference_front (lexemes source.entry) ≡ None)
        (λ found. reference_front (lexemes source.entry) ≡ Some (ref_of found.0, lexemes found.1)) }
{
    match first_part(source) {
        Some((Part::Text(expression), rest)) => Some((Reference::Group(expression), rest)),
        Some((called, rest)) => behind_name(rest, name_of(&called)?),
        None => None,
    }
}
