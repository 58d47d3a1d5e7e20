//! Want of memory, as a user meets it: its line and its status.

use std::test::Fail;
use tester_types::MemSink;
use tool_inputs::no_memory;

#[test]
fn want_of_memory_is_told_by_its_line_and_status_8(rt: HostRuntime) -> Result<(), Fail> {
    let alloc = rt.alloc();
    let mut sink = MemSink::new(alloc, 99, 99, Vec::new(alloc), Vec::new(alloc))?;
    let status = no_memory(&mut sink);
    assert_eq!(rt; status.number(), 8);
    assert!(rt; sink.bytes() == b"out of memory\n".as_slice());
    Ok(())
}
