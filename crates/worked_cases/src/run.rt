//! A case, run through a public call over objects in memory.

use crate::case::Case;
use crate::outside::Outside;
use die_sim::{FailingSocket, SimSocket, SocketBox};
use lot_parts::divide;
use std::alloc::Global;
use std::fmt;
use std::sync::Wait;
use std::thread::Threads;
use stil_tool::{Status, offline, tester};
use tester_types::{
    Desk, ListDesk, MemShelf, MemSink, NoMemory, OpenGate, Shelf, SilentDesk, Sink,
};

/// A public call of `stil_tool`, or that of `lot_parts`.
#[derive(Clone, Copy, Debug, PartialEq, Eq)]
pub enum Call {
    Tester,
    Offline,
    Divide,
}

impl fmt::Display for Call {
    fn fmt<W: fmt::Write>(&self, f: &mut fmt::Formatter<W>) -> fmt::Result {
        match self {
            Call::Tester => write!(f, "tester"),
            Call::Offline => write!(f, "offline"),
            Call::Divide => write!(f, "divide"),
        }
    }
}

/// What a call answered, and what it wrote.
#[derive(Drop)]
pub struct Answer {
    /// The exit status.
    pub status: u8,
    pub sink: MemSink,
}

/// The shelf of a case.
fn shelf(alloc: Global, case: &Case, outside: Outside) -> Result<MemShelf, NoMemory> {
    let mut files = Vec::new(alloc);
    for file in case.files.as_slice() {
        let name = String::from_str(alloc, file.0.as_str())?;
        files.push((name, Vec::from_slice(alloc, file.1.as_slice())?))?;
    }
    let mut failing = Vec::from_slice(alloc, case.failing_loads.as_slice())?;
    if let Outside::FailingLoad(load) = outside {
        failing.push(load)?;
    }
    Ok(MemShelf::new(files, failing))
}

/// The sink of a case: it has room for what is wanted and some more, where the case doesn't say how much.
fn sink(alloc: Global, case: &Case, outside: Outside) -> Result<MemSink, NoMemory> {
    let room = case.room.unwrap_or(case.text.len().saturating_add(4096));
    let mut failing = Vec::from_slice(alloc, case.failing_puts.as_slice())?;
    let mut empty = Vec::from_slice(alloc, case.empty_puts.as_slice())?;
    let most = match outside {
        Outside::AsSaid | Outside::FailingLoad(_) => case.most.max(1),
        Outside::ByteSink | Outside::FailingPut(_) | Outside::EmptyPut(_) => 1,
    };
    match outside {
        Outside::FailingPut(put) => failing.push(put)?,
        Outside::EmptyPut(put) => empty.push(put)?,
        _ => {}
    }
    MemSink::new(alloc, room, most, failing, empty)
}

/// Runs the command of a case through `tester`. A socket loses contact at the call of its number; never where it is 0. The
/// gate is open.
fn run_words<R: Threads + Wait + Sync, F: Shelf, D: Desk, K: Sink>(
    rt: &R,
    alloc: Global,
    case: &Case,
    shelf: &mut F,
    desk: &mut D,
    sink: &mut K,
) -> Result<Status, NoMemory> {
    let mut sockets: Vec<SocketBox> = Vec::new(alloc);
    for call in case.sockets.as_slice() {
        let socket: SocketBox = if *call == 0 {
            Box::new(alloc, SimSocket::new(alloc))?
        } else {
            Box::new(alloc, FailingSocket::new(alloc, *call))?
        };
        sockets.push(socket)?;
    }
    Ok(tester(
        rt,
        alloc,
        case.words.as_slice(),
        shelf,
        &mut sockets,
        desk,
        &OpenGate,
        sink,
    ))
}

/// Runs a case through `tester`, with this desk.
fn run_with<R: AllocGlobal + Threads + Wait + Sync, D: Desk>(
    rt: &R,
    case: &Case,
    outside: Outside,
    desk: &mut D,
) -> Result<Answer, NoMemory> {
    let alloc = rt.alloc();
    let (mut shelf, mut sink) = (shelf(alloc, case, outside)?, sink(alloc, case, outside)?);
    let status = run_words(rt, alloc, case, &mut shelf, desk, &mut sink)?;
    Ok(Answer {
        status: status.number(),
        sink,
    })
}

/// Runs a case through `tester`, whose desk is silent where the case says nothing of it.
fn run_tester<R: AllocGlobal + Threads + Wait + Sync>(
    rt: &R,
    case: &Case,
    outside: Outside,
) -> Result<Answer, NoMemory> {
    if case.asks.is_empty() {
        return run_with(rt, case, outside, &mut SilentDesk::new());
    }
    let asks = Vec::from_slice(rt.alloc(), case.asks.as_slice())?;
    run_with(rt, case, outside, &mut ListDesk::new(asks))
}

/// Runs a case through `offline`.
fn run_offline(alloc: Global, case: &Case, outside: Outside) -> Result<Answer, NoMemory> {
    let (mut shelf, mut sink) = (shelf(alloc, case, outside)?, sink(alloc, case, outside)?);
    let status = offline(alloc, case.words.as_slice(), &mut shelf, &mut sink);
    Ok(Answer {
        status: status.number(),
        sink,
    })
}

/// Runs a case through `divide`.
fn run_divide(alloc: Global, case: &Case, outside: Outside) -> Result<Answer, NoMemory> {
    let (mut shelf, mut sink) = (shelf(alloc, case, outside)?, sink(alloc, case, outside)?);
    let outcome = divide(alloc, case.words.as_slice(), &mut shelf, &mut sink);
    Ok(Answer {
        status: outcome.number(),
        sink,
    })
}

/// Runs a case through a call, with an outside that fails in this way.
pub fn run<R: AllocGlobal + Threads + Wait + Sync>(
    rt: &R,
    case: &Case,
    outside: Outside,
    call: Call,
) -> Result<Answer, NoMemory> {
    match call {
        Call::Tester => run_tester(rt, case, outside),
        Call::Offline => run_offline(rt.alloc(), case, outside),
        Call::Divide => run_divide(rt.alloc(), case, outside),
    }
}

/// Whether the words are those of a lot, a drill or a grade, which only the tester runs.
fn needs_tester(case: &Case) -> bool {
    match case.words.first() {
        Some(word) => matches!(word.as_str(), "lot" | "drill" | "grade"),
        None => false,
    }
}

/// The calls of a case: `divide` or `offline` alone where the case says so, else the tester, and `offline` too but for a lot, a
/// drill or a grade.
pub fn calls(case: &Case) -> &'static [Call] {
    if case.is_divided {
        &[Call::Divide]
    } else if case.is_offline {
        &[Call::Offline]
    } else if needs_tester(case) {
        &[Call::Tester]
    } else {
        &[Call::Tester, Call::Offline]
    }
}
