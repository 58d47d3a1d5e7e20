//! The command that the command line names, run.

use host_files::{FileShelf, HELD_BACK, WriterSink, words};
use lot_parts::{Outcome, Status, divide, out_of_memory};
use std::io::{self, BufWriter};
use std::rt::{Env, Files};
use tester_types::Sink;

/// Runs the command that the command line names, over a sink.
fn run_over<R: Files + Env + AllocGlobal, K: Sink>(rt: &R, sink: &mut K) -> Outcome {
    let alloc = rt.alloc();
    let Ok(words) = words(rt) else {
        return out_of_memory(sink);
    };
    let mut shelf = FileShelf::new(rt);
    divide(alloc, words.as_slice(), &mut shelf, sink)
}

/// Runs the command that the command line names. Output is held back and written in large pieces; where its end can't be
/// written, that is a write fault.
pub fn run<R: Files + Env + Print + AllocGlobal>(rt: &R) -> Outcome {
    let alloc = rt.alloc();
    let Ok(writer) = BufWriter::with_capacity(alloc, HELD_BACK, io::writer(rt)) else {
        return out_of_memory(&mut WriterSink::new(io::writer(rt)));
    };
    let mut sink = WriterSink::new(writer);
    let outcome = run_over(rt, &mut sink);
    match sink.finish() {
        Ok(()) => outcome,
        Err(_) => Outcome::Ended(Status::WriteFault),
    }
}
