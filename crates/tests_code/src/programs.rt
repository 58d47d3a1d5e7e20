//! A saved program with a loop across the border of its first page, in both versions.

use page_code::{Code, load};
use std::alloc::{AllocError, Global};
use std::test::Fail;

/// A signal a, a table w with waves for 0 and 1, the rows 0 and 1, and an executive up to its chains: in version 1.
pub(crate) static FRONT: &[u8] = &[
    0xD7, 0x53, 0x54, 0x50, 1, 0, 0, 0, 1, 0, 0, 1, 0, b'a', 1, 0, 1, 0, b'w', 0x00, 0xE1, 0xF5,
    0x05, 0, 0, 0, 0, 2, 0, 0, 0, 0, 0, b'0', 1, 0, 0, 0, 0, 0, 0, 0, 0, 1, 0, 0, b'1', 1, 0, 0, 0,
    0, 0, 0, 0, 0, 2, 2, 0, 0, 0, b'0', b'1', 1, 0, 0, 0, 0, 0,
];

/// The same in version 2, whose rows have a form.
pub(crate) static FRONT_TWO: &[u8] = &[
    0xD7, 0x53, 0x54, 0x50, 2, 0, 0, 0, 1, 0, 0, 1, 0, b'a', 1, 0, 1, 0, b'w', 0x00, 0xE1, 0xF5,
    0x05, 0, 0, 0, 0, 2, 0, 0, 0, 0, 0, b'0', 1, 0, 0, 0, 0, 0, 0, 0, 0, 1, 0, 0, b'1', 1, 0, 0, 0,
    0, 0, 0, 0, 0, 2, 2, 0, 0, 0, 0, b'0', 0, b'1', 1, 0, 0, 0, 0, 0,
];

/// Runs row 1 of table 0 three times.
static RUN: &[u8] = &[1, 0, 0, 0, 1, 0, 0, 0, 0, 0, 0, 0, 3, 0, 0, 0];

/// A loop of two passes.
static TWICE: &[u8] = &[2, 0, 0, 0, 0, 0, 0, 0, 2, 0, 0, 0, 0, 0, 0, 0];

/// The end of a loop.
static END: &[u8] = &[3, 0, 0, 0, 0, 0, 0, 0, 0, 0, 0, 0, 0, 0, 0, 0];

/// The end of the executive.
static DONE: &[u8] = &[4, 0, 0, 0, 0, 0, 0, 0, 0, 0, 0, 0, 0, 0, 0, 0];

/// Adds a piece so often.
fn add(bytes: &mut Vec<u8>, times: u32, piece: &[u8]) -> Result<(), AllocError> {
    for _ in 0..times {
        bytes.extend_from_slice(piece)?;
    }
    Ok(())
}

/// Adds 559 instructions with their number before them: 254 runs, a loop of two runs, 300 runs and the end.
fn add_instrs(bytes: &mut Vec<u8>) -> Result<(), AllocError> {
    bytes.extend_from_slice(&[0x2F, 2, 0, 0])?;
    add(bytes, 254, RUN)?;
    add(bytes, 1, TWICE)?;
    add(bytes, 2, RUN)?;
    add(bytes, 1, END)?;
    add(bytes, 300, RUN)?;
    add(bytes, 1, DONE)
}

/// The bytes of the program behind a front.
pub(crate) fn long_program(alloc: Global, front: &[u8]) -> Result<Vec<u8>, AllocError> {
    let mut bytes = Vec::from_slice(alloc, front)?;
    add_instrs(&mut bytes)?;
    Ok(bytes)
}

/// The code that these bytes save.
pub(crate) fn loaded(alloc: Global, bytes: &[u8]) -> Result<Code, Fail> {
    let code = load(alloc, bytes).ok().ok_or("the bytes are a code")?;
    Ok(code)
}

/// The code of the program.
pub(crate) fn long_code(alloc: Global) -> Result<Code, Fail> {
    let bytes = long_program(alloc, FRONT_TWO)?;
    loaded(alloc, &bytes)
}
