//! The commands that need no tester, by the words of the command line.

ghost use Rattle.std.specs.Prelude.{ℕ, List, IfSome, IfNone};
ghost use Rattle.tester_types.specs.Outside.{Loads};
ghost use Rattle.text_commands.specs.declared.command.Command.{Command};
ghost use Rattle.tool_inputs.specs.Endings.{Answers, IsDone};
ghost use Rattle.stil_tool.specs.Offline.{words_seen, AreOf, Wants, IsFine};
ghost use Rattle.stil_tool.specs.Dump.{AreDump, IsFineDump};

use crate::dump::dump;
use std::alloc::Global;
use tester_types::{Piece, Shelf, Sink};
use text_bytes::MOST_PLAN_SITES;
use text_commands::{Command, command_of, run_file};
use tool_inputs::{Status, ended, read_number};

/// Runs a command that needs no tester. On a STIL text `check FILE` prints the numbers of its code, `cycles FILE` its dated
/// cycles, `events FILE` the moments of its cycles, `save FILE` writes its code as a saved program, and `flat FILE` as a
/// flat STIL text. `dump PROGRAM PLAN SITE` prints what is driven in the first try of the site's first die, as a value
/// change dump. The words, the files and their contents decide the answer, and with each answer comes its line or its text;
/// a put that fails or takes nothing is answered as a write fault. A text is refused by its first fault; `cycles` and
/// `events` refuse one of more than 65,536 cycles too, and `flat` one whose flat text would be too long or refused. Want of
/// memory may come at any time; of `events` whole lines may stand before its line.
pub fn offline<F: Shelf, K: Sink>(
    alloc: Global,
    words: &[String],
    shelf: &mut F,
    out: &mut K,
) -> Status
    ensures answers { Answers (Wants (words_seen words.now)
        (F.told shelf.old) (F.faults shelf.old) (F.faults shelf.new))
        (K.told out.old) (K.faults out.old) result (K.told out.new) (K.faults out.new) }
    ensures complete { IsFine (words_seen words.now) (F.told shelf.old) (F.faults shelf.old) (F.faults shelf.new)
        (K.faults out.old) (K.faults out.new) → IsDone result }
    ensures complete_dump { IsFineDump (words_seen words.now) (F.told shelf.old) (F.faults shelf.old)
        (F.faults shelf.new) (K.faults out.old) (K.faults out.new) → IsDone result }
    ensures loads { Loads (F.told shelf.old) (F.faults shelf.old) (F.told shelf.new) (F.faults shelf.new) }
{
    match file_command(words) {
        Some((command, file)) => run_file(alloc, command, file, shelf, out),
        None => match dump_command(words) {
            Some((program, plan, site)) => dump(alloc, program, plan, site, shelf, out),
            None => ended(out, &[Piece::Text(USAGE)], Status::Usage),
        },
    }
}

/// What is written where the words are none of the forms of the program's commands.
pub const USAGE: &[u8] =
    b"usage: check FILE | cycles FILE | events FILE | save FILE | lot PROGRAM PLAN | drill N | \
flat FILE | grade PROGRAM PLAN | dump PROGRAM PLAN SITE\n";

/// The command of these words, and the file that it names.
fn file_command(words: &[String]) -> Option<(Command, &str)>
    ensures found { IfSome result (λ called. AreOf (words_seen words.now) called.0 called.1.now) }
    ensures none { IfNone result ((command : Command) (file : List ℕ) → AreOf (words_seen words.now) command file → ⊥) }
{
    match words {
        [word, file] => match command_of(word.as_str()) {
            Some(command) => Some((command, file.as_str())),
            None => None,
        },
        _ => None,
    }
}

/// The program, the plan and the site of the words `dump PROGRAM PLAN SITE`.
fn dump_command(words: &[String]) -> Option<(&str, &str, u8)>
    ensures found { IfSome result (λ named. AreDump (words_seen words.now) named.0.now named.1.now named.2) }
    ensures none { IfNone result ((program plan : List ℕ) (site : ℕ)
        → AreDump (words_seen words.now) program plan site → ⊥) }
{
    match words {
        [command, program, plan, site] => {
            if command.as_str() == "dump" {
                match read_number(site.as_str(), 0, MOST_PLAN_SITES as u8 - 1) {
                    Some(site) => Some((program.as_str(), plan.as_str(), site)),
                    None => None,
                }
            } else {
                None
            }
        }
        _ => None,
    }
}
