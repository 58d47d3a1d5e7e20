//! Reads a value change dump and prints how many moments it has, so that the reading can be timed.

use crate::files::bytes;
use crate::words::word;
use std::io;
use std::io::Print;
use std::rt::Files;
use text_bytes::MOST_BYTES;
use vcd_text::{DumpFault, read_dump};

/// Measures the reading of the dump that the word behind `dumps` names.
pub fn run<R: Files + Print + AllocGlobal>(rt: &R, words: &[String]) -> io::Result<()> {
    let bytes = bytes(rt, word(words, 0))?;
    if bytes.len() > MOST_BYTES {
        return println!(rt; "too long");
    }
    match read_dump(rt.alloc(), bytes.as_slice()) {
        Ok(dump) => println!(rt; "{} moments of drives", dump.tape.len()),
        Err(DumpFault::Line(line)) => println!(rt; "no dump from line {line}"),
        Err(DumpFault::NoMemory) => println!(rt; "out of memory"),
    }
}
