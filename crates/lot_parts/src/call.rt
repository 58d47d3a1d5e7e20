//! The public call of the program.

ghost use Rattle.tester_types.specs.Outside.{Loads};
ghost use Rattle.lot_parts.specs.Words.{words_seen};
ghost use Rattle.lot_parts.specs.Endings.{AnswersAs};
ghost use Rattle.lot_parts.specs.Divider.{DividerWants};

use crate::cutting::{cut, parts};
use crate::grade::grade;
use crate::grades::merge_grade;
use crate::merge::merge;
use crate::outcome::Outcome;
use crate::words::{Job, job_of};
use std::alloc::Global;
use tester_types::{Piece, Shelf, Sink};
use tool_inputs::{Status, ended};

/// What is written where the words are none of the forms of the program's commands.
pub const USAGE: &[u8] =
    b"usage: parts PLAN | part PLAN K N | merge PLAN FILE .. | grade PROGRAM PLAN K N | \
merge-grade FILE ..\n";

/// Runs a command. `parts PLAN` prints into how many parts a plan must be cut at least, so that none has more sites with
/// dies than a tester has sockets; `part PLAN K N` prints the plan of part K of N; `merge PLAN FILE ..` prints the datalog
/// of a plan, of those of its parts in order; `grade PROGRAM PLAN K N` prints part K of N of the grade of the plan's first
/// die; and `merge-grade FILE ..` prints the grade, of its parts in order. N is at most 4,096. The words, the files and
/// their contents decide the answer, and with each answer comes its line or its text; nothing is written of a merge before
/// all parts are read. A put that fails or takes nothing is answered as a write fault. Want of memory may come at any time.
pub fn divide<F: Shelf, K: Sink>(
    alloc: Global,
    words: &[String],
    shelf: &mut F,
    out: &mut K,
) -> Outcome
    ensures answers { AnswersAs (DividerWants (words_seen words.now)
        (F.told shelf.old) (F.faults shelf.old) (F.faults shelf.new))
        (K.told out.old) (K.faults out.old) result (K.told out.new) (K.faults out.new) }
    ensures loads { Loads (F.told shelf.old) (F.faults shelf.old) (F.told shelf.new) (F.faults shelf.new) }
{
    match job_of(words) {
        Job::Parts(plan) => Outcome::Ended(parts(alloc, plan, shelf, out)),
        Job::Cut(plan, of) => Outcome::Ended(cut(alloc, plan, of, shelf, out)),
        Job::Merge(plan, files) => merge(alloc, plan, files, shelf, out),
        Job::Grade(program, plan, of) => {
            Outcome::Ended(grade(alloc, program, plan, of, shelf, out))
        }
        Job::MergeGrade(files) => merge_grade(alloc, files, shelf, out),
        Job::Nothing => Outcome::Ended(ended(out, &[Piece::Text(USAGE)], Status::Usage)),
    }
}
