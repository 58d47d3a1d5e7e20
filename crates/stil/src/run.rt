//! The command that the command line names, run.

use die_sim::{SimSocket, SocketBox};
use host_files::{FileShelf, HELD_BACK, WriterSink, words};
use std::alloc::Global;
use std::io::{self, BufWriter};
use std::rt::{Env, Files};
use std::sync::Wait;
use std::thread::Threads;
use stil_tool::{Status, no_memory, tester};
use tester_types::{Desk, OpenGate, Shelf, Sink};
use text_bytes::MOST_SITES;

/// Runs the command of these words at sockets with simulated dies, one for each site. The gate is open.
fn run_words<R: Threads + Wait + Sync, F: Shelf, D: Desk, K: Sink>(
    rt: &R,
    alloc: Global,
    words: &[String],
    shelf: &mut F,
    desk: &mut D,
    sink: &mut K,
) -> Status {
    let mut sockets: Vec<SocketBox> = Vec::new(alloc);
    for _ in 0..MOST_SITES {
        let Ok(socket) = Box::new(alloc, SimSocket::new(alloc)) else {
            return no_memory(sink);
        };
        let socket: SocketBox = socket;
        if sockets.push(socket).is_err() {
            return no_memory(sink);
        }
    }
    tester(rt, alloc, words, shelf, &mut sockets, desk, &OpenGate, sink)
}

/// Runs the command that the command line names, over a sink.
fn run_over<R: Files + Env + AllocGlobal + Threads + Wait + Sync, D: Desk, K: Sink>(
    rt: &R,
    desk: &mut D,
    sink: &mut K,
) -> Status {
    let alloc = rt.alloc();
    let Ok(words) = words(rt) else {
        return no_memory(sink);
    };
    let mut shelf = FileShelf::new(rt);
    run_words(rt, alloc, words.as_slice(), &mut shelf, desk, sink)
}

/// Runs the command that the command line names, with this desk. Output is held back and written in large pieces; where its
/// end can't be written, that is a write fault.
pub fn run<R: Files + Env + Print + AllocGlobal + Threads + Wait + Sync, D: Desk>(
    rt: &R,
    desk: &mut D,
) -> Status {
    let alloc = rt.alloc();
    let Ok(writer) = BufWriter::with_capacity(alloc, HELD_BACK, io::writer(rt)) else {
        return no_memory(&mut WriterSink::new(io::writer(rt)));
    };
    let mut sink = WriterSink::new(writer);
    let status = run_over(rt, desk, &mut sink);
    match sink.finish() {
        Ok(()) => status,
        Err(_) => Status::WriteFault,
    }
}
