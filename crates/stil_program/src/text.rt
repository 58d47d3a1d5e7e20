//! A text that was compiled.

use packed_code::Code;

/// The code of a text, with the line of each of its executives.
#[derive(Drop)]
pub struct CompiledText {
    pub code: Code,
    pub lines: Vec<u32>,
}
