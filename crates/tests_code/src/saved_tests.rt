//! What no command shows of saved programs: other first bytes, pages, and version 1.

ghost use Rattle.std.specs.Prelude.{◌<◌, length};

use crate::programs::{FRONT, FRONT_TWO, loaded, long_code, long_program};
use page_code::*;
use std::alloc::Global;
use std::test::*;
use std::thread;
use tester_types::{MemSink, NoMemory};

/// The refusal of these bytes.
fn fault(alloc: Global, bytes: &[u8]) -> Option<SavedFault> {
    load(alloc, bytes).err()
}

#[test]
fn other_first_bytes_are_no_saved_program(rt: HostRuntime) {
    assert!(rt; fault(rt.alloc(), b"\xD7ST\0\x01\0\0\0") == Some(SavedFault::BadMagic));
}

/// Whether the saved form of a code is these bytes, written in puts of at most 7.
fn is_saved_as(alloc: Global, code: &Code, bytes: &[u8]) -> Result<bool, NoMemory> {
    let none = Vec::new(alloc);
    let mut sink = MemSink::new(alloc, bytes.len(), 7, none, Vec::new(alloc))?;
    Ok(
        saved_len(code) == bytes.len() as u64
            && save(code, &mut sink).is_ok()
            && sink.bytes() == bytes,
    )
}

/// Whether the saved form of a code in version 1 is these bytes.
fn is_old_form(alloc: Global, code: &Code, bytes: &[u8]) -> Result<bool, NoMemory> {
    let none = Vec::new(alloc);
    let mut sink = MemSink::new(alloc, bytes.len(), 7, none, Vec::new(alloc))?;
    Ok(save_old(code, &mut sink).is_ok() && sink.bytes() == bytes)
}

#[test]
fn three_pages_are_saved_in_both_versions(rt: HostRuntime) -> Result<(), Fail> {
    let bytes = long_program(rt.alloc(), FRONT_TWO)?;
    let code = loaded(rt.alloc(), &bytes)?;
    assert!(rt; is_saved_as(rt.alloc(), &code, &bytes)?);
    let old = long_program(rt.alloc(), FRONT)?;
    assert!(rt; is_old_form(rt.alloc(), &code, &old)?);
    Ok(())
}

/// What no page shows to a walk: how many instructions and pages there are, the page of the last instruction, how many
/// that has, and how many places its last instruction takes.
fn told_pages(alloc: Global, code: &Code) -> Result<String, Fail>
    requires { 0 < length code.now.execs }
{
    let (instrs, pages) = (code.instrs(0), code.pages());
    if instrs == 0 {
        return Err(Fail::from("instructions"));
    }
    let number = code.page_of(0, instrs - 1);
    if number >= pages {
        return Err(Fail::from("a page"));
    }
    let page = code.page(number);
    let last = page.last().ok_or("a page has instructions")?.instr();
    let packed = pack(alloc, &[last])?.len();
    let length = page.len();
    let is_done = last == Instr::Done;
    Ok(format!(in alloc; "{instrs} {pages} {number} {length} {packed} {is_done}")?)
}

#[test]
fn a_page_has_its_instructions_packed(rt: HostRuntime) -> Result<(), Fail> {
    let code = long_code(rt.alloc())?;
    if code.execs() == 0 {
        return Err(Fail::from("an executive"));
    }
    assert!(rt; told_pages(rt.alloc(), &code)?.as_str() == "559 3 2 47 1 true");
    Ok(())
}

#[test]
fn a_code_crosses_threads(rt: HostRuntime) -> Result<(), Fail> {
    let code = long_code(rt.alloc())?;
    let (pages, rows) = thread::join(&rt, || code.pages(), || code.rows());
    assert!(rt; (pages, rows) == (3, 2));
    Ok(())
}
