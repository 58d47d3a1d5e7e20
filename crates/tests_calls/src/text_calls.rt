//! Two texts: one with a byte beyond ASCII, and one without a fault.

use std::alloc::Global;
use stil_ast::StilKind::BadByte;
use stil_ast::{Blocks, StilRefusal};
use stil_program::read_text;

/// What a short text is read as.
fn read(alloc: Global, text: &[u8]) -> Option<Result<Blocks, StilRefusal>> {
    if text.len() >= 4000 {
        return None;
    }
    Some(read_text(alloc, text))
}

#[test]
fn a_byte_beyond_ascii_is_told(rt: HostRuntime) {
    let blocks = read(rt.alloc(), b"STIL 1.0;\nSignals {\n\x80");
    assert!(rt;
        matches!(&blocks, Some(Err(StilRefusal::Fault(fault))) if fault.kind == BadByte && fault.line == 3)
    );
}

#[test]
fn a_text_without_a_fault_is_read(rt: HostRuntime) {
    let text = b"STIL 1.0; Signals { a In; } // one\nPatternExec e { PatternBurst b; }";
    let blocks = read(rt.alloc(), text);
    assert!(rt; matches!(&blocks, Some(Ok(blocks)) if blocks.executives.len() == 1));
}
