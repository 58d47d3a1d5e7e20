//! What a statement of a body says by its own tokens (IEEE 1450-1999, clauses 22 to 24).

ghost use Rattle.std.specs.Prelude.{◌≡◌, ◌||◌};
ghost use Rattle.stil_form.specs.Lexeme.{lexeme_of, lexemes};
ghost use Rattle.stil_form.specs.Words.{is_keyword};
ghost use Rattle.pat_read.specs.Fault.{DataAnswers};
ghost use Rattle.pat_read.specs.Statements.{keyword_of, unlabelled, alone, only_name, looped, keyword_said, unlabelled_said, statement_said};

use crate::fault::DataFault;
use std::alloc::Global;
use stil_form::{Part, SignKind, Source, first_part, is_word, name_of};
use tester_types::{Items, Text};
use text_bytes::{MOST_PASSES, number_by};

/// The keywords of bodies.
#[derive(Clone, Copy, Debug, PartialEq, Eq)]
pub(crate) enum Keyword {
    Wave,
    Vector,
    Condition,
    Loop,
    Macro,
    Call,
    Shift,
    Stop,
    BreakPoint,
    IddqTestPoint,
}

/// A statement without statements in it, which may have assignments.
#[derive(Debug, Drop)]
pub(crate) enum Plain {
    Wave(Text),
    Vector,
    Condition,
    Macro(Text),
    Call(Text),
    Stop,
    BreakPoint,
    IddqTestPoint,
}

/// What a statement says without its block.
#[derive(Debug, Drop)]
pub(crate) enum Outline {
    Step(Plain),
    Loop(u64),
    Shift,
}

fn is_either(part: &Part, short: &[u8], long: &[u8]) -> bool
    ensures { result ≡ (is_keyword short.now (lexeme_of part.now) || is_keyword long.now (lexeme_of part.now)) }
{
    is_word(part, short) || is_word(part, long)
}

/// The keyword that a part is.
fn keyword_of(part: &Part) -> Option<Keyword>
    ensures { result ≡ keyword_of (lexeme_of part.now) }
{
    if is_either(part, b"V", b"Vector") {
        Some(Keyword::Vector)
    } else if is_either(part, b"W", b"WaveformTable") {
        Some(Keyword::Wave)
    } else if is_either(part, b"C", b"Condition") {
        Some(Keyword::Condition)
    } else if is_word(part, b"Loop") {
        Some(Keyword::Loop)
    } else if is_word(part, b"Macro") {
        Some(Keyword::Macro)
    } else if is_word(part, b"Call") {
        Some(Keyword::Call)
    } else if is_word(part, b"Shift") {
        Some(Keyword::Shift)
    } else if is_word(part, b"Stop") {
        Some(Keyword::Stop)
    } else if is_word(part, b"BreakPoint") {
        Some(Keyword::BreakPoint)
    } else if is_word(part, b"IddqTestPoint") {
        Some(Keyword::IddqTestPoint)
    } else {
        None
    }
}

/// A statement without its label.
fn unlabelled(head: Source) -> Source
    ensures { lexemes result ≡ unlabelled (lexemes head.entry) }
{
    let Some((called, rest)) = first_part(head) else {
        return head;
    };
    match first_part(rest) {
        Some((Part::Sign(SignKind::Colon), behind)) => {
            if name_of(&called).is_some() {
                behind
            } else {
                head
            }
        }
        _ => head,
    }
}

/// What a keyword says, where nothing stands behind it.
fn alone(said: Outline, rest: Source) -> Result<Outline, DataFault>
    ensures { DataAnswers (λ said. said) result (alone said (lexemes rest.entry)) }
{
    match first_part(rest) {
        None => Ok(said),
        Some(_) => Err(DataFault::Shape),
    }
}

/// The one name that stands behind a keyword.
fn only_name(alloc: Global, rest: Source) -> Result<Text, DataFault>
    ensures { DataAnswers (λ called. called) result (only_name (lexemes rest.entry)) }
{
    let Some((called, rest)) = first_part(rest) else {
        return Err(DataFault::Shape);
    };
    if first_part(rest).is_some() {
        return Err(DataFault::Shape);
    }
    match name_of(&called) {
        Some(name) => Ok(Items::from_slice(alloc, name)?),
        None => Err(DataFault::Shape),
    }
}

/// A Loop, where the digits of 1 to 2^48 stand behind its keyword.
fn looped(rest: Source) -> Result<Outline, DataFault>
    ensures { DataAnswers (λ said. said) result (looped (lexemes rest.entry)) }
{
    let Some((Part::Word(digits), rest)) = first_part(rest) else {
        return Err(DataFault::Shape);
    };
    if first_part(rest).is_some() {
        return Err(DataFault::Shape);
    }
    let Some(times) = number_by(digits) else {
        return Err(DataFault::Shape);
    };
    if 1 <= times && times <= MOST_PASSES {
        Ok(Outline::Loop(times))
    } else {
        Err(DataFault::OutOfRange)
    }
}

/// The form of a keyword, by whether it stands at a Pattern's top level, whether it has a block, and what stands
/// behind it.
fn keyword_said(
    alloc: Global,
    top: bool,
    keyword: Keyword,
    has_block: bool,
    rest: Source,
) -> Result<Outline, DataFault>
    ensures { DataAnswers (λ said. said) result (keyword_said top keyword has_block (lexemes rest.entry)) }
{
    match (keyword, has_block) {
        (Keyword::Wave, false) => Ok(Outline::Step(Plain::Wave(only_name(alloc, rest)?))),
        (Keyword::Vector, true) => alone(Outline::Step(Plain::Vector), rest),
        (Keyword::Condition, true) => alone(Outline::Step(Plain::Condition), rest),
        (Keyword::Loop, true) => looped(rest),
        (Keyword::Macro, _) => Ok(Outline::Step(Plain::Macro(only_name(alloc, rest)?))),
        (Keyword::Call, _) => Ok(Outline::Step(Plain::Call(only_name(alloc, rest)?))),
        (Keyword::Shift, true) => alone(Outline::Shift, rest),
        (Keyword::Stop, _) if !top => Err(DataFault::LeftOut),
        (Keyword::Stop, false) => alone(Outline::Step(Plain::Stop), rest),
        (Keyword::BreakPoint, false) => alone(Outline::Step(Plain::BreakPoint), rest),
        (Keyword::BreakPoint, true) if first_part(rest).is_none() => Err(DataFault::LeftOut),
        (Keyword::IddqTestPoint, false) => alone(Outline::Step(Plain::IddqTestPoint), rest),
        _ => Err(DataFault::Shape),
    }
}

/// What a statement says, by whether it stands at a Pattern's top level, whether it has a block, and its head.
pub(crate) fn statement_said(
    alloc: Global,
    top: bool,
    has_block: bool,
    head: Source,
) -> Result<Outline, DataFault>
    ensures { DataAnswers (λ said. said) result (statement_said top has_block (lexemes head.entry)) }
{
    let Some((one, rest)) = first_part(unlabelled(head)) else {
        return Err(DataFault::LeftOut);
    };
    match keyword_of(&one) {
        Some(keyword) => keyword_said(alloc, top, keyword, has_block, rest),
        None => Err(DataFault::LeftOut),
    }
}
