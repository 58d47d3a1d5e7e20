//! A text by the passes of the language, up to its first fault.

use burst_exec::executives;
use packed_code::Code;
use std::alloc::{AllocError, AllocFailed, Global};
use stil_ast::{StilFault, StilRefusal};
use stil_program::{program, read_text};
use text_bytes::MOST_BYTES;

/// Why a text isn't read to its end.
#[derive(Drop)]
pub(crate) enum Stop {
    NoMemory,
    /// It has more bytes than a text may have.
    TooLong,
    Fault(StilFault),
}

impl From<AllocError> for Stop {
    fn from(_error: AllocError) -> Stop {
        Stop::NoMemory
    }
}

impl<T: Drop> From<AllocFailed<T>> for Stop {
    fn from(_error: AllocFailed<T>) -> Stop {
        Stop::NoMemory
    }
}

impl From<StilRefusal> for Stop {
    fn from(refusal: StilRefusal) -> Stop {
        match refusal {
            StilRefusal::NoMemory => Stop::NoMemory,
            StilRefusal::Fault(fault) => Stop::Fault(fault),
        }
    }
}

/// Judges a text by its blocks, its signals and groups, and its executives.
fn judge_text(alloc: Global, text: &[u8]) -> Result<(), Stop> {
    if text.len() > MOST_BYTES {
        return Err(Stop::TooLong);
    }
    let blocks = read_text(alloc, text)?;
    let signals = signal_groups::build(alloc, &blocks)?;
    let _execs = executives(alloc, &blocks, &signals)?;
    Ok(())
}

/// The code of a text.
fn code_of(alloc: Global, text: &[u8]) -> Result<Code, Stop> {
    if text.len() > MOST_BYTES {
        return Err(Stop::TooLong);
    }
    let code = program(alloc, text)?;
    Ok(code)
}

/// The bytes as a word that can be printed.
fn word_or_dash(bytes: &[u8]) -> &str {
    if bytes.is_empty() {
        return "-";
    }
    str::from_utf8(bytes).unwrap_or("?")
}

/// What is told of a fault: its kind, its block, the block's name, and its line.
fn told(alloc: Global, fault: &StilFault) -> Result<String, AllocError> {
    let (kind, line) = (fault.kind.name(), fault.line);
    let (block, name) = (
        word_or_dash(fault.block.as_slice()),
        word_or_dash(fault.name.as_slice()),
    );
    Ok(format!(in alloc; "{kind} {block} {name} {line}")?)
}

/// What is told where a text isn't read to its end.
fn stopped(alloc: Global, stop: Stop) -> Result<String, AllocError> {
    match stop {
        Stop::NoMemory => String::from_str(alloc, "no memory"),
        Stop::TooLong => String::from_str(alloc, "too long"),
        Stop::Fault(fault) => told(alloc, &fault),
    }
}

/// What is told of a text's first fault before it is compiled, or `fine`.
pub(crate) fn judge(alloc: Global, text: &[u8]) -> Result<String, AllocError> {
    match judge_text(alloc, text) {
        Ok(()) => String::from_str(alloc, "fine"),
        Err(stop) => stopped(alloc, stop),
    }
}

/// What is told of a code: how many executives, cycles of all of them, and rows it has.
fn counted(alloc: Global, code: &Code) -> Result<String, AllocError> {
    let mut cycles: u64 = 0;
    for exec in 0..code.execs() {
        cycles = cycles.saturating_add(code.cycles(exec));
    }
    let (execs, rows) = (code.execs(), code.rows());
    Ok(format!(in alloc; "{execs} {cycles} {rows}")?)
}

/// What is told of a text's code, or of its first fault.
pub(crate) fn judge_code(alloc: Global, text: &[u8]) -> Result<String, AllocError> {
    match code_of(alloc, text) {
        Ok(code) => counted(alloc, &code),
        Err(stop) => stopped(alloc, stop),
    }
}
