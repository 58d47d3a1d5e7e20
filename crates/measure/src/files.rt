//! The files that words name.

use std::io::Read;
use std::rt::Files;
use std::{fs, io};
use text_bytes::MOST_BYTES;

/// The bytes of the file of this name, one more than the limit at most; none where the name is empty.
pub fn bytes<R: Files + AllocGlobal>(rt: &R, name: &str) -> io::Result<Vec<u8>> {
    let mut bytes = Vec::new(rt.alloc());
    if !name.is_empty() {
        let file = fs::open(rt, name)?;
        let _ = file.take(MOST_BYTES as u64 + 1).read_to_end(&mut bytes)?;
    }
    Ok(bytes)
}
