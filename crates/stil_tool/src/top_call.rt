//! The public call of the program: the commands that need no tester, the lot, the grade and the drill.

ghost use Rattle.std.specs.Prelude.{◌≡◌, ℕ, List, [], ◌∷◌, IfSome, IfNone, length};
ghost use Rattle.tester_types.specs.Outside.{Loads};
ghost use Rattle.tool_inputs.specs.Endings.{Answers, IsDone};
ghost use Rattle.stil_tool.specs.Offline.{IsFine, words_seen};
ghost use Rattle.stil_tool.specs.Drill.{AreDrill, IsFineDrill};
ghost use Rattle.stil_tool.specs.Tester.{NeedTester, TesterWants};
ghost use Rattle.stil_tool.specs.Jobs.{IsJob};
ghost use Rattle.stil_tool.specs.FineLot.{IsFineLot};
ghost use Rattle.stil_tool.specs.Grade.{IsFineGrade};
ghost use Rattle.stil_tool.specs.Dump.{IsFineDump};

use crate::drill::drill;
use crate::grade::grade;
use crate::lot::lot;
use crate::offline_call::offline;
use die_sim::{Socket, SocketBox};
use std::alloc::Global;
use std::sync::Wait;
use std::thread::Threads;
use tester_types::{Desk, Gate, Shelf, Sink};
use tool_inputs::{Status, read_number};

/// Runs a command: those of `offline`; `lot PROGRAM PLAN`, which runs the lot of the plan on the program, a STIL text or a
/// saved program, and prints its datalog; `grade PROGRAM PLAN`, which prints for each single stuck-at fault of the plan's
/// first die the first failing cycle; and `drill N`, which runs a lot of texts of its own at four sites, and prints how
/// many looks failed and how many dies each bin has. The words, the files and their contents decide the answer, and with
/// each answer comes its line or its text; a put that fails or takes nothing is answered as a write fault. Want of memory
/// may come at any time.
///
/// A lot runs each site of its plan at the socket of its number, beside the others. While they run the desk is asked for
/// stops, and each site passes the gate before each batch; so a lot may wait. A grade passes the gate once in each of its
/// threads, and may wait for them. Every command but a lot and a drill leaves the sockets and the desk as they were.
pub fn tester<F: Shelf, K: Sink, D: Desk, G: Gate, R: Threads + Wait + Sync>(
    rt: &R,
    alloc: Global,
    words: &[String],
    shelf: &mut F,
    sockets: &mut Vec<SocketBox>,
    desk: &mut D,
    gate: &G,
    out: &mut K,
) -> Status
    ensures answers { Answers (TesterWants ⟦<SocketBox as Socket>⟧.told (words_seen words.now)
        (F.told shelf.old) (F.faults shelf.old) (F.faults shelf.new)
        (record { sockets = sockets.old.items; stops = D.stops desk.old; asked = D.asked desk.old })
        (record { sockets = sockets.new.items; stops = D.stops desk.new; asked = D.asked desk.new }))
        (K.told out.old) (K.faults out.old) result (K.told out.new) (K.faults out.new) }
    ensures others { (NeedTester (words_seen words.now) → ⊥) → (sockets.new ≡ sockets.old) × (desk.new ≡ desk.old) }
    ensures complete { IsFine (words_seen words.now) (F.told shelf.old) (F.faults shelf.old) (F.faults shelf.new)
        (K.faults out.old) (K.faults out.new) → IsDone result }
    ensures complete_lot { IsFineLot (words_seen words.now) (F.told shelf.old) (F.faults shelf.old) (F.faults shelf.new)
        (K.faults out.old) (K.faults out.new) (length sockets.old.items) → IsDone result }
    ensures complete_drill { IsFineDrill (words_seen words.now) (K.faults out.old) (K.faults out.new)
        (length sockets.old.items) → IsDone result }
    ensures complete_grade { IsFineGrade (words_seen words.now) (F.told shelf.old) (F.faults shelf.old)
        (F.faults shelf.new) (K.faults out.old) (K.faults out.new) → IsDone result }
    ensures complete_dump { IsFineDump (words_seen words.now) (F.told shelf.old) (F.faults shelf.old)
        (F.faults shelf.new) (K.faults out.old) (K.faults out.new) → IsDone result }
    ensures loads { Loads (F.told shelf.old) (F.faults shelf.old) (F.told shelf.new) (F.faults shelf.new) }
{
    match job_of(words) {
        Job::Lot(program, plan) => lot(rt, alloc, program, plan, shelf, sockets, desk, gate, out),
        Job::Grade(program, plan) => grade(rt, alloc, program, plan, shelf, gate, out),
        Job::Drill(number) => {
            prove!(number <= 200);
            drill(rt, alloc, number, sockets, desk, gate, out)
        }
        Job::Offline => offline(alloc, words, shelf, out),
    }
}

/// What words ask for.
#[derive(Clone, Copy)]
enum Job<'a> {
    /// The lot of these files, a program and a plan.
    Lot(&'a str, &'a str),
    /// The grade of these files, a program and a plan.
    Grade(&'a str, &'a str),
    /// The drill of this number.
    Drill(u8),
    /// A command that needs no tester, or none.
    Offline,
}

/// What words ask for.
fn job_of(words: &[String]) -> Job<'_>
    ensures { IsJob (words_seen words.now) result }
{
    match files_behind(words, "lot") {
        Some((program, plan)) => Job::Lot(program, plan),
        None => match files_behind(words, "grade") {
            Some((program, plan)) => Job::Grade(program, plan),
            None => match drill_number(words) {
                Some(number) => Job::Drill(number),
                None => Job::Offline,
            },
        },
    }
}

/// The two files that words name behind this one.
fn files_behind<'a>(words: &'a [String], word: &str) -> Option<(&'a str, &'a str)>
    ensures found { IfSome result (λ files. words_seen words.now ≡ word.now ∷ files.0.now ∷ files.1.now ∷ []) }
    ensures none { IfNone result ((program plan : List ℕ) → words_seen words.now ≡ word.now ∷ program ∷ plan ∷ [] → ⊥) }
{
    match words {
        [command, program, plan] => {
            if command.as_str() == word {
                Some((program.as_str(), plan.as_str()))
            } else {
                None
            }
        }
        _ => None,
    }
}

/// The number of the words `drill N`.
fn drill_number(words: &[String]) -> Option<u8>
    ensures found { IfSome result (AreDrill (words_seen words.now)) }
    ensures none { IfNone result ((number : ℕ) → AreDrill (words_seen words.now) number → ⊥) }
{
    match words {
        [command, number] if command.as_str() == "drill" => read_number(number.as_str(), 1, 200),
        _ => None,
    }
}
