//! What the first line of a try and the line of its verdict say, from their ends.

ghost use Rattle.std.specs.Prelude.{◌≡◌, ◌↔◌, ◌⊎◌, ℕ, List, IsTrue, MatchOption, codes, false};
ghost use Rattle.std.specs.List.{list_any};
ghost use Rattle.part_lines.specs.Words.{is_gap};
ghost use Rattle.log_parts.specs.Tries.{IsTryLine, IsVerdictLine};
ghost use Rattle.log_parts.specs.Step.{EndsNumbered, IsByDesk, IsByPlan};

use part_lines::{is_printed, last_word};
use tester_types::Piece;
use text_bytes::are_digits;

/// Whether a line is the first one of the try of this number.
pub(crate) fn is_try(line: &[u8], number: u64) -> bool
    ensures { IsTrue result ↔ IsTryLine number line.now }
{
    let Some(front) = before_number(line, b"fails") else {
        return false;
    };
    let Some(head) = before_number(front, b"cycles") else {
        return false;
    };
    is_printed(
        head,
        &[Piece::Text(b"try "), Piece::Number(u128::from(number))],
    )
}

/// Whether a line is that of a verdict.
pub(crate) fn is_verdict(line: &[u8]) -> bool
    ensures { IsTrue result ↔ IsVerdictLine line.now }
{
    if line == b"verdict pass".as_slice() {
        return true;
    }
    if is_counted(line, b"fail") {
        return true;
    }
    if is_counted(line, b"contact") {
        return true;
    }
    is_stopped(line)
}

/// Whether a line is that of a stop.
fn is_stopped(line: &[u8]) -> bool
    ensures { IsTrue result ↔ (IsByDesk line.now ⊎ IsByPlan line.now) }
{
    is_by_desk(line) || is_by_plan(line)
}

/// Whether a line is that of a verdict, this word and a number.
fn is_counted(line: &[u8], word: &[u8]) -> bool
    requires { list_any is_gap word.now ≡ false }
    ensures { IsTrue result ↔ EndsNumbered word.now line.now (codes "verdict") }
{
    match before_number(line, word) {
        Some(front) => front == b"verdict".as_slice(),
        None => false,
    }
}

/// Whether a line is that of a stop of the desk.
fn is_by_desk(line: &[u8]) -> bool
    ensures { IsTrue result ↔ IsByDesk line.now }
{
    match before_number(line, b"desk") {
        Some(front) => is_counted(front, b"stopped"),
        None => false,
    }
}

/// Whether a line is that of a stop of the plan.
fn is_by_plan(line: &[u8]) -> bool
    ensures { IsTrue result ↔ IsByPlan line.now }
{
    match last_word(line) {
        Some((front, word)) => word == b"plan".as_slice() && is_counted(front, b"stopped"),
        None => false,
    }
}

/// What stands before this word and a number at the end of a line; nothing where it doesn't end so.
fn before_number<'a>(line: &'a [u8], word: &[u8]) -> Option<&'a [u8]>
    requires { list_any is_gap word.now ≡ false }
    ensures { MatchOption result ((front : List ℕ) → EndsNumbered word.now line.now front → ⊥)
        (λ front. EndsNumbered word.now line.now front.now) }
{
    let (words, number) = last_word(line)?;
    if !are_digits(number) {
        return None;
    }
    let (front, last) = last_word(words)?;
    if last == word { Some(front) } else { None }
}
