//! Reads known texts by the readers of the whole language, and prints each whose first fault isn't the one that is wanted,
//! and how many texts there are. The words of the command line name the files of texts; docs/formats.md says how these are
//! written.
#![tactic(auto)]

mod front;
mod known;

use crate::front::{judge, judge_code};
use crate::known::{Known, known_of};
use std::alloc::Global;
use std::rt::{Env, Files};
use std::{env, fs, io};

/// How many texts there were, and how many of them were answered otherwise.
#[derive(Clone, Copy, Debug, Default)]
struct TextTally {
    texts: u64,
    differ: u64,
}

/// What is told of a text: of its code where that is wanted, else of its first fault before it is compiled, or `fine`.
fn answer_of(alloc: Global, text: &str, is_compiled: bool) -> String {
    let answer = if is_compiled {
        judge_code(alloc, text.as_bytes())
    } else {
        judge(alloc, text.as_bytes())
    };
    match answer {
        Ok(answer) => answer,
        Err(_) => String::new(alloc),
    }
}

impl TextTally {
    /// Judges one text, and prints what differs.
    fn take<R: Print + AllocGlobal>(&mut self, rt: &R, file: &str, known: Known) -> io::Result<()> {
        self.texts = self.texts.saturating_add(1);
        let (wanted, is_compiled) = match known.wanted.strip_prefix("code ") {
            Some(wanted) => (wanted, true),
            None => (known.wanted, false),
        };
        let answer = answer_of(rt.alloc(), known.text, is_compiled);
        if answer.as_str() == wanted {
            return Ok(());
        }
        self.differ = self.differ.saturating_add(1);
        let title = known.title;
        println!(rt; "{file}: {title}: `{answer}`, and `{wanted}` is wanted")
    }

    /// Judges the texts of a file.
    fn take_all<R: Print + AllocGlobal>(
        &mut self,
        rt: &R,
        file: &str,
        content: &str,
    ) -> io::Result<()> {
        let known = known_of(rt.alloc(), content)?;
        for one in known {
            self.take(rt, file, one)?;
        }
        Ok(())
    }
}

/// Judges the texts of all files that the command line names.
fn judge_files<R: Files + Env + Print + AllocGlobal>(rt: &R) -> io::Result<()> {
    let mut tally = TextTally::default();
    for file in env::args(rt)?.skip(1) {
        let content = fs::read_to_string(rt, file.as_str())?;
        tally.take_all(rt, file.as_str(), content.as_str())?;
    }
    let TextTally { texts, differ } = tally;
    println!(rt; "{texts} texts, {differ} answered otherwise")
}

fn main(rt: HostRuntime) -> io::Result<()> {
    judge_files(&rt)
}
