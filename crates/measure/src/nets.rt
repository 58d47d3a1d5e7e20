//! Reads a netlist and prints how many nets it has, so that the reading can be timed.

use crate::files::bytes;
use crate::words::word;
use bench_net::read;
use std::io;
use std::io::Print;
use std::rt::Files;
use text_bytes::MOST_BYTES;

/// Measures the reading of the netlist that the word behind `nets` names.
pub fn run<R: Files + Print + AllocGlobal>(rt: &R, words: &[String]) -> io::Result<()> {
    let bytes = bytes(rt, word(words, 0))?;
    if bytes.len() > MOST_BYTES {
        return println!(rt; "too long");
    }
    match read(rt.alloc(), bytes.as_slice()) {
        Ok(netlist) => println!(rt; "{} nets", netlist.nets()),
        Err(fault) => println!(rt; "refused: {fault:?}"),
    }
}
