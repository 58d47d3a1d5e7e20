//! `merge-grade`: the grade, of the texts of its parts.

ghost use Rattle.std.specs.Prelude.{◌≡◌, ◌+◌, ◌==◌, ◌<◌, List, length, MatchResult};
ghost use Rattle.tester_types.specs.Outside.{Loads};
ghost use Rattle.grade_parts.specs.Log.{Stuck};
ghost use Rattle.grade_parts.specs.Turns.{good_of};
ghost use Rattle.grade_parts.specs.Merged.{AreParts};
ghost use Rattle.grade_parts.specs.Step.{Knows};
ghost use Rattle.grade_parts.specs.Reads.{said_good, IsGoodSaid, ReadsPart};
ghost use Rattle.lot_parts.specs.Words.{words_seen};
ghost use Rattle.lot_parts.specs.Files.{texts_seen};
ghost use Rattle.lot_parts.specs.Endings.{AnswersAs};
ghost use Rattle.lot_parts.specs.Grades.{AreLogTexts, IsTextRefused, MergeWants};

use crate::load::load_parts;
use crate::outcome::Outcome;
use crate::refusal::{PartRefusal, part_refusal, put_part_refusal};
use grade_parts::{GradeLog, Told, put_merged_grade};
use part_lines::LineFault;
use std::alloc::Global;
use tester_types::{Shelf, Sink};
use tool_inputs::{Refusal, Status};

/// What the first of these says of the good die.
fn good_of<'a>(logs: &[GradeLog<'a>]) -> Option<&'a [u8]>
    ensures good { said_good result ≡ good_of logs.now }
    ensures said { IsGoodSaid (said_good result) }
{
    match logs.first() {
        Some(first) => Some(first.good()),
        None => None,
    }
}

/// Reads the text of the part behind these, which told of these faults.
fn read_log<'a>(
    text: &'a [u8],
    logs: &[GradeLog<'a>],
    told: &mut Told<'a>,
    last: bool,
) -> Result<GradeLog<'a>, LineFault>
    ensures { (before : List Stuck) → Knows told.old before
        → ReadsPart (good_of logs.now) before last text.now told.new result }
{
    GradeLog::read(text, good_of(logs), told, last)
}

/// Whether the part of this number, from 0, is the last of so many.
fn is_last(at: usize, count: usize) -> bool
    requires { at < count }
    ensures { result ≡ (at + 1 == count) }
{
    at + 1 == count
}

/// Reads the texts of all parts, one after another.
fn read_logs<'a>(
    alloc: Global,
    files: &[String],
    texts: &'a [Vec<u8>],
) -> Result<Vec<GradeLog<'a>>, PartRefusal>
    requires { length files.now ≡ length texts.now }
    ensures { MatchResult result (λ logs. AreLogTexts (texts_seen texts.now) logs.items × AreParts logs.items)
        (IsTextRefused (words_seen files.now) (texts_seen texts.now)) }
{
    let mut logs = Vec::new(alloc);
    let mut told = Told::new(alloc);
    for (at, text) in texts.iter().enumerate() {
        let last = is_last(at, texts.len());
        match read_log(text.as_slice(), logs.as_slice(), &mut told, last) {
            Ok(log) => match logs.push(log) {
                Ok(()) => {}
                Err(_) => return Err(PartRefusal::Of(Refusal::NoMemory)),
            },
            Err(fault) => return Err(part_refusal(alloc, files[at].as_str(), fault)),
        }
    }
    Ok(logs)
}

/// Reads the texts of all parts of a grade, and prints the grade, or the line of the first refusal.
pub(crate) fn merge_grade<F: Shelf, K: Sink>(
    alloc: Global,
    files: &[String],
    shelf: &mut F,
    out: &mut K,
) -> Outcome
    requires { 0 < length files.now }
    ensures answers { AnswersAs (MergeWants (F.told shelf.old) (F.faults shelf.old) (F.faults shelf.new)
        (words_seen files.now)) (K.told out.old) (K.faults out.old) result (K.told out.new) (K.faults out.new) }
    ensures loads { Loads (F.told shelf.old) (F.faults shelf.old) (F.told shelf.new) (F.faults shelf.new) }
{
    let texts = match load_parts(alloc, files, shelf) {
        Ok(texts) => texts,
        Err(refusal) => return put_part_refusal(out, &PartRefusal::Of(refusal)),
    };
    let logs = match read_logs(alloc, files, texts.as_slice()) {
        Ok(logs) => logs,
        Err(refusal) => return put_part_refusal(out, &refusal),
    };
    match put_merged_grade(logs.as_slice(), out) {
        Ok(()) => Outcome::Ended(Status::Done),
        Err(_) => Outcome::Ended(Status::WriteFault),
    }
}
