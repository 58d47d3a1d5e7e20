//! What is printed of cases: those that answer otherwise, and how many there are.

use crate::case::Case;
use crate::outside::{Outside, Wanted, read_fault};
use crate::reader::CasesFault;
use crate::run::{Answer, Call, calls, run};
use std::io;
use std::sync::Wait;
use std::thread::Threads;

/// How many cases there were, and how many of them answered otherwise.
#[derive(Clone, Copy, Debug, Default)]
pub struct CaseTally {
    cases: u64,
    differ: u64,
}

/// The first line in which two texts differ, with its number from 1, as each has it; none where one text is a front of the
/// other up to a line's end.
fn first_difference<'a>(found: &'a [u8], wanted: &'a [u8]) -> Option<(u64, &'a [u8], &'a [u8])> {
    let mut number = 0u64;
    let wanted = wanted.split(|byte| *byte == b'\n');
    for (one, other) in found.split(|byte| *byte == b'\n').zip(wanted) {
        number = number.saturating_add(1);
        if one != other {
            return Some((number, one, other));
        }
    }
    None
}

/// The bytes as a text that can be printed.
fn printable(bytes: &[u8]) -> &str {
    str::from_utf8(bytes).unwrap_or("(no text)")
}

/// Prints how an answer differs from the wanted one.
fn print_difference<R: Print + AllocGlobal>(
    rt: &R,
    file: &str,
    case: &Case,
    wanted: Wanted,
    call: Call,
    answer: &Answer,
) -> io::Result<()> {
    let (title, outside, found, status) = (
        &case.title,
        wanted.outside,
        answer.status,
        wanted.status,
    );
    println!(rt;
        "{file}: {title}: by {call}{outside} the status is {found}, and {status} is wanted"
    )?;
    let (found, wanted) = (answer.sink.bytes(), wanted.text);
    match first_difference(found, wanted) {
        Some((number, found, wanted)) => {
            let (found, wanted) = (printable(found), printable(wanted));
            println!(rt; "  line {number} is `{found}`, and `{wanted}` is wanted")
        }
        None => {
            let (found, wanted) = (found.len(), wanted.len());
            println!(rt; "  there are {found} bytes, and {wanted} are wanted")
        }
    }
}

/// Whether the answer is the one that is wanted.
fn agrees(wanted: Wanted, answer: &Answer) -> bool {
    answer.status == wanted.status && answer.sink.bytes() == wanted.text
}

impl CaseTally {
    /// Makes a run of a case through each of its calls, and counts it as a case.
    fn judge_run<R: Print + AllocGlobal + Threads + Wait + Sync>(
        &mut self,
        rt: &R,
        file: &str,
        case: &Case,
        wanted: Wanted,
    ) -> io::Result<()> {
        self.cases = self.cases.saturating_add(1);
        let mut agreed = true;
        for call in calls(case) {
            let call = *call;
            let Ok(answer) = run(rt, case, wanted.outside, call) else {
                agreed = false;
                continue;
            };
            if !agrees(wanted, &answer) {
                agreed = false;
                print_difference(rt, file, case, wanted, call, &answer)?;
            }
        }
        if !agreed {
            self.differ = self.differ.saturating_add(1);
        }
        Ok(())
    }

    /// The runs of a case in which one of its loads fails.
    fn judge_loads<R: Print + AllocGlobal + Threads + Wait + Sync>(
        &mut self,
        rt: &R,
        file: &str,
        case: &Case,
    ) -> io::Result<()> {
        let mut load = 0u64;
        for name in case.loaded.as_slice() {
            load = load.saturating_add(1);
            let line = read_fault(rt.alloc(), name.as_str())?;
            let wanted = Wanted {
                outside: Outside::FailingLoad(load),
                status: 2,
                text: line.as_bytes(),
            };
            self.judge_run(rt, file, case, wanted)?;
        }
        Ok(())
    }

    /// The runs of a case whose sink takes one byte a put: in one of them none fails, and in two for each byte of the text its
    /// put fails or takes nothing.
    fn judge_puts<R: Print + AllocGlobal + Threads + Wait + Sync>(
        &mut self,
        rt: &R,
        file: &str,
        case: &Case,
    ) -> io::Result<()> {
        self.judge_run(rt, file, case, Wanted::whole(case, Outside::ByteSink))?;
        let mut put = 0u64;
        for place in 0..case.text.len() {
            put = put.saturating_add(1);
            let before = &case.text.as_slice()[..place];
            let failing = Wanted::write_fault(Outside::FailingPut(put), before);
            self.judge_run(rt, file, case, failing)?;
            let empty = Wanted::write_fault(Outside::EmptyPut(put), before);
            self.judge_run(rt, file, case, empty)?;
        }
        Ok(())
    }

    /// Makes all runs of a case.
    fn judge<R: Print + AllocGlobal + Threads + Wait + Sync>(
        &mut self,
        rt: &R,
        file: &str,
        case: &Case,
    ) -> io::Result<()> {
        self.judge_run(rt, file, case, Wanted::whole(case, Outside::AsSaid))?;
        self.judge_loads(rt, file, case)?;
        if case.is_bytewise {
            self.judge_puts(rt, file, case)?;
        }
        Ok(())
    }

    /// Runs the cases of a file.
    pub fn judge_all<R: Print + AllocGlobal + Threads + Wait + Sync>(
        &mut self,
        rt: &R,
        file: &str,
        cases: &[Case],
    ) -> io::Result<()> {
        for case in cases {
            self.judge(rt, file, case)?;
        }
        Ok(())
    }

    /// Prints why a file of cases isn't read, and counts it as a case that differs.
    pub fn unread<R: Print + AllocGlobal>(
        &mut self,
        rt: &R,
        file: &str,
        fault: &CasesFault,
    ) -> io::Result<()> {
        self.cases = self.cases.saturating_add(1);
        self.differ = self.differ.saturating_add(1);
        match fault {
            CasesFault::NoMemory => println!(rt; "{file}: out of memory"),
            CasesFault::Line(line) => println!(rt; "{file}: line {line} has no form of a line"),
        }
    }

    /// Prints how many cases there were, and how many of them answered otherwise.
    pub fn print<R: Print + AllocGlobal>(&self, rt: &R) -> io::Result<()> {
        let (cases, differ) = (self.cases, self.differ);
        println!(rt; "{cases} cases, {differ} differ")
    }
}
