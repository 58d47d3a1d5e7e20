//! Runs worked cases through the public calls of `stil_tool` and `lot_parts`, over objects in memory, and prints each whose
//! answer isn't the one that it wants, and how many there are. The words of the command line name the files of cases;
//! docs/formats.md says how these are written.
#![tactic(auto)]

mod bytes;
mod case;
mod fill;
mod outside;
mod reader;
mod report;
mod run;

use crate::reader::read_cases;
use crate::report::CaseTally;
use std::rt::{Env, Files};
use std::sync::Wait;
use std::thread::Threads;
use std::{env, fs, io};

/// Runs the cases of a file.
fn judge_file<R: Files + Print + AllocGlobal + Threads + Wait + Sync>(
    rt: &R,
    file: &str,
    tally: &mut CaseTally,
) -> io::Result<()> {
    let text = fs::read_to_string(rt, file)?;
    match read_cases(rt.alloc(), text.as_str()) {
        Ok(cases) => tally.judge_all(rt, file, cases.as_slice()),
        Err(fault) => tally.unread(rt, file, &fault),
    }
}

/// Runs the cases of all files that the command line names.
fn judge_files<R: Files + Env + Print + AllocGlobal + Threads + Wait + Sync>(
    rt: &R,
) -> io::Result<()> {
    let mut tally = CaseTally::default();
    for file in env::args(rt)?.skip(1) {
        judge_file(rt, file.as_str(), &mut tally)?;
    }
    tally.print(rt)
}

fn main(rt: HostRuntime) -> io::Result<()> {
    judge_files(&rt)
}
