//! Measures parts of the program. The first word says which, the others how often; each module says what its words mean. Without
//! a word each part is measured once.
#![tactic(auto)]

mod board;
mod bodies;
mod dies;
mod dumps;
mod files;
mod groups;
mod moments;
mod nets;
mod pages;
mod programs;
mod words;

use std::io::Print;
use std::rt::{Clock, Env, Files};
use std::sync::Wait;
use std::thread::Threads;
use std::{env, io};

/// The words of the command line.
fn given_words<R: Env + AllocGlobal>(rt: &R) -> io::Result<Vec<String>> {
    let mut words = Vec::new(rt.alloc());
    for word in env::args(rt)?.skip(1) {
        words.push(word)?;
    }
    Ok(words)
}

/// Measures the part that this word names.
fn measure<R: Files + Print + Clock + AllocGlobal + Threads + Wait + Sync>(
    rt: &R,
    part: &str,
    words: &[String],
) -> io::Result<()> {
    match part {
        "board" => board::run(rt, words),
        "bodies" => bodies::run(rt, words),
        "dies" => dies::run(rt, words),
        "dumps" => dumps::run(rt, words),
        "groups" => groups::run(rt, words),
        "moments" => moments::run(rt, words),
        "nets" => nets::run(rt, words),
        "pages" => pages::run(rt, words),
        _ => println!(rt; "no part is named {part}"),
    }
}

fn main(rt: HostRuntime) -> io::Result<()> {
    let words = given_words(&rt)?;
    match words.as_slice() {
        [part, others @ ..] => measure(&rt, part.as_str(), others),
        [] => {
            for part in [
                "board", "bodies", "dies", "dumps", "groups", "moments", "nets", "pages",
            ] {
                measure(&rt, part, &[])?;
            }
            Ok(())
        }
    }
}
