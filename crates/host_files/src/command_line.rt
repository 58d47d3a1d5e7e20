//! The words of the command line.

use std::rt::Env;
use std::{env, io};
use tester_types::NoMemory;

/// The words behind the program's name.
fn read_words<R: Env + AllocGlobal>(rt: &R) -> io::Result<Vec<String>> {
    env::args(rt)?
        .skip(1)
        .collect(rt.alloc())
        .map_err(io::Error::from)
}

/// The words behind the program's name, or want of memory. There are none where one of them is no text.
pub fn words<R: Env + AllocGlobal>(rt: &R) -> Result<Vec<String>, NoMemory> {
    match read_words(rt) {
        Ok(words) => Ok(words),
        Err(fault) if fault.kind() == io::ErrorKind::OutOfMemory => Err(NoMemory),
        Err(_) => Ok(Vec::new(rt.alloc())),
    }
}
