//! The text of a part of a grade, read line by line.

ghost use Rattle.std.specs.Prelude.{◌≡◌, ◌++◌, ◌&&◌, ℕ, List, Option, true, cond, not, is_some, IfOk, MatchOption, decimal};
ghost use Rattle.part_lines.specs.Lines.{is_one_line};
ghost use Rattle.grade_parts.specs.Log.{Stuck, ends_none, is_good};
ghost use Rattle.grade_parts.specs.Step.{Knows, IsFirst, LacksGood, FindsFault, AreFront, IsBehind, counts_text};
ghost use Rattle.grade_parts.specs.Reads.{said_good, IsGoodSaid, is_good_of, ReadsPart};

use crate::log::GradeLog;
use crate::said::{is_cycle, told_fault};
use crate::told::Told;
use itoa::Buffer;
use part_lines::{LineFault, Lines};
use std::alloc::AllocError;

/// The first line of a text that no text of a part can have there, counted from 1.
const FIRST: u64 = 1;

/// The lines of faults in front of a text: where they end, how many they are, and how many of them some cycle finds.
#[derive(Drop)]
struct Front {
    end: usize,
    count: u64,
    found: u64,
}

/// Reads the text of a part, behind parts that told of these faults; it may be the last one. Where this is said of the good
/// die, it says the same.
pub(crate) fn read_text<'a>(
    text: &'a [u8],
    good: Option<&[u8]>,
    told: &mut Told<'a>,
    last: bool,
) -> Result<GradeLog<'a>, LineFault>
    requires good { IsGoodSaid (said_good good) }
    ensures { (before : List Stuck) → Knows told.old before
        → ReadsPart (said_good good.entry) before last text.now told.new result }
{
    match first_good(text) {
        Some(line) if may_be(good, line) => read_rest(text, line, told, last),
        _ => Err(LineFault::Line(FIRST)),
    }
}

/// Whether the line of a good die is this one, where there is one.
fn may_be(good: Option<&[u8]>, line: &[u8]) -> bool
    ensures { result ≡ is_good_of (said_good good.entry) line.now }
{
    match good {
        Some(other) => other == line,
        None => true,
    }
}

/// Reads what stands behind the line of the good die.
fn read_rest<'a>(
    text: &'a [u8],
    good: &'a [u8],
    told: &mut Told<'a>,
    last: bool,
) -> Result<GradeLog<'a>, LineFault>
    requires good { is_good good.now ≡ true }
    requires front { IsFirst text.now good.now }
    ensures { (before : List Stuck) (said : Option (List ℕ)) → Knows told.old before → is_good_of said good.now ≡ true
        → ReadsPart said before last text.now told.new result }
{
    let rest = &text[good.len() + 1..];
    let front = fault_front(rest, told)?;
    if is_short(told, last) {
        return Err(LineFault::Line(front.count + 2));
    }
    match behind_counts(&rest[front.end..], front.count, front.found) {
        Some([]) => Ok(GradeLog::of(good, &rest[..front.end], front.count, front.found)),
        Some(_) => Err(LineFault::Line(front.count + 3)),
        None => Err(LineFault::Line(front.count + 2)),
    }
}

/// Whether the last part leaves a net without its fault at 1.
fn is_short(told: &Told, last: bool) -> bool
    ensures { result ≡ (last && is_some told.now.waiting) }
{
    last && told.is_waiting()
}

/// The lines of faults in front of a text, each of which comes next.
fn fault_front<'a>(text: &'a [u8], told: &mut Told<'a>) -> Result<Front, AllocError>
    ensures { IfOk result (λ front. AreFront text.now front.end front.count front.found told.old told.new) }
{
    let mut end = 0;
    let mut count = 0;
    let mut found = 0;
    loop {
        match next_fault(&text[end..], told) {
            Ok(Some(line)) => {
                end += line.len() + 1;
                count += 1;
                found += found_by(line);
            }
            Ok(None) => return Ok(Front { end, count, found }),
            Err(error) => return Err(error),
        }
    }
}

/// The first line of a text, where it tells of a fault that comes next.
fn next_fault<'a>(text: &'a [u8], told: &mut Told<'a>) -> Result<Option<&'a [u8]>, AllocError>
    ensures { IfOk result (λ found. FindsFault text.now told.old told.new found) }
{
    let Some(line) = first_line(text) else {
        return Ok(None);
    };
    let Some((net, value)) = told_fault(line) else {
        return Ok(None);
    };
    if !told.comes_next(net, value) {
        return Ok(None);
    }
    told.add(net, value)?;
    Ok(Some(line))
}

/// 1 where some cycle finds the fault of a line.
fn found_by(line: &[u8]) -> u64
    ensures { result ≡ cond (not (ends_none line.now)) 1 0 }
{
    if line.ends_with(b" none") { 0 } else { 1 }
}

/// What stands behind the line of so many faults.
fn behind_counts(text: &[u8], count: u64, found: u64) -> Option<&[u8]>
    ensures { IsBehind text.now (counts_text count found) result }
{
    let rest = behind_number(text, b"faults ", count)?;
    let rest = behind_number(rest, b" found ", found)?;
    behind(rest, b"\n")
}

/// What stands behind a word and a number.
fn behind_number<'a>(text: &'a [u8], word: &[u8], number: u64) -> Option<&'a [u8]>
    ensures { IsBehind text.now (word.now ++ decimal number) result }
{
    let rest = behind(text, word)?;
    behind(rest, Buffer::new().format(number).as_bytes())
}

/// What stands behind a front of a text.
pub(crate) fn behind<'a>(text: &'a [u8], front: &[u8]) -> Option<&'a [u8]>
    ensures { IsBehind text.now front.now result }
{
    text.strip_prefix(front)
}

/// The first line of a text, where a line feed stands.
fn first_line(text: &[u8]) -> Option<&[u8]>
    ensures { MatchOption result (is_one_line text.now ≡ true) (λ line. IsFirst text.now line.now) }
{
    Lines::new(text).peek()
}

/// The first line of a text, where it is that of a good die.
fn first_good(text: &[u8]) -> Option<&[u8]>
    ensures { MatchOption result (LacksGood text.now) (λ line. IsFirst text.now line.now × (is_good line.now ≡ true)) }
{
    let line = first_line(text)?;
    if is_good(line) { Some(line) } else { None }
}

/// Whether a line is that of a good die.
fn is_good(line: &[u8]) -> bool
    requires { is_one_line line.now ≡ true }
    ensures { result ≡ is_good line.now }
{
    line.len() >= 5 && line.starts_with(b"good ") && is_cycle(&line[5..])
}
