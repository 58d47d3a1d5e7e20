//! The text of a whole grade, of what the texts of its parts say.

ghost use Rattle.std.specs.Prelude.{◌≡◌, ◌<◌, ◌≤◌, ◌∷◌, List, OnErr, length, sum_by};
ghost use Rattle.std.specs.List.{flat_map};
ghost use Rattle.tester_types.specs.Outside.{Prints, HasRisen, Puts};
ghost use Rattle.part_lines.specs.Lines.{ended};
ghost use Rattle.grade_parts.specs.Log.{GradeLog as Said};
ghost use Rattle.grade_parts.specs.Merged.{merged_text};
ghost use Rattle.grade_parts.specs.Step.{counts_text, fault_lines, count_of, found_of};

use crate::log::GradeLog;
use tester_types::{Piece, Sink, SinkFault, put_all, put_each};

/// Puts the text of the grade of all faults: the line of the good die of the first part, the lines of the faults, part
/// after part, and how many they are and how many of them are found. It takes no memory.
pub fn put_merged_grade<K: Sink>(logs: &[GradeLog<'_>], sink: &mut K) -> Result<(), SinkFault>
    requires { 0 < length logs.now }
    ensures puts { (first : Said) (later : List Said) → logs.now ≡ first ∷ later
        → Puts (K.told sink.old) (merged_text first later) result (K.told sink.new) }
    ensures count { K.faults sink.old ≤ K.faults sink.new }
    ensures cause { OnErr result (HasRisen (K.faults sink.old) (K.faults sink.new)) }
{
    put_good(sink, logs[0].good())?;
    put_faults(sink, logs)?;
    put_counts(sink, count_all(logs), found_all(logs))
}

/// Puts the line of the good die.
fn put_good<K: Sink>(sink: &mut K, good: &[u8]) -> Result<(), SinkFault>
    ensures { Prints (K.told sink.old) (K.faults sink.old) (ended good.now) result
        (K.told sink.new) (K.faults sink.new) }
{
    let line = [Piece::Text(good), Piece::Text(b"\n")];
    put_each(sink, &line)
}

/// Puts the lines of the faults of all parts.
fn put_faults<K: Sink>(sink: &mut K, logs: &[GradeLog<'_>]) -> Result<(), SinkFault>
    ensures { Prints (K.told sink.old) (K.faults sink.old) (flat_map fault_lines logs.now) result
        (K.told sink.new) (K.faults sink.new) }
{
    for log in logs {
        put_all(sink, log.faults())?;
    }
    Ok(())
}

/// How many faults all parts have.
fn count_all(logs: &[GradeLog<'_>]) -> u128
    ensures { result ≡ sum_by count_of logs.now }
{
    let mut all = 0;
    for log in logs {
        all += u128::from(log.count());
    }
    all
}

/// How many faults of all parts some cycle finds.
fn found_all(logs: &[GradeLog<'_>]) -> u128
    ensures { result ≡ sum_by found_of logs.now }
{
    let mut all = 0;
    for log in logs {
        all += u128::from(log.found());
    }
    all
}

/// Puts the line of so many faults.
fn put_counts<K: Sink>(sink: &mut K, count: u128, found: u128) -> Result<(), SinkFault>
    ensures { Prints (K.told sink.old) (K.faults sink.old) (counts_text count found) result
        (K.told sink.new) (K.faults sink.new) }
{
    let line = [
        Piece::Text(b"faults "),
        Piece::Number(count),
        Piece::Text(b" found "),
        Piece::Number(found),
        Piece::Text(b"\n"),
    ];
    put_each(sink, &line)
}
