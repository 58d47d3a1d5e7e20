//! Walks, saves or loads a code a number of times and prints how much that was, so that it can be timed. The words are `walk`
//! with a number of cycles, or `save` or `load` with a number of times. `cursor` does what `walk` does by a cursor, inside a
//! page; `far` walks a loop over three pages, and `far1`, `far2` and `far64` do so by a cursor with so many frames. `save_rows`
//! and `load_rows` take a code of many rows in place of one of many instructions. With `_old` behind it, a word saves or loads
//! version 1.

ghost use Rattle.std.specs.Prelude.{◌≡◌, ◌<◌, ◌≤◌, IfSome, length};

use crate::programs::{far, long, many_rows, nest};
use crate::words::{number, word};
use page_code::{Code, load, save, save_old, walk};
use pattern_mem::{PatternMem, PoolPass, at};
use std::alloc::Global;
use std::io;
use std::io::Print;
use std::sync::Wait;
use tester_types::{MemSink, NoMemory};

/// The bytes that each saved program has room in.
const ROOM: usize = 20_000_000;

/// How many cycles come, of so many that are asked for.
fn walked(code: &Code, most: u32) -> u64
    requires { 0 < length code.now.execs }
{
    let mut place = walk(code, 0);
    let mut count = 0u64;
    for _ in 0..most {
        if place.next(code).is_some() {
            count = count.saturating_add(1);
        }
    }
    count
}

/// How many cycles a cursor gives, of so many that are asked for.
fn given<R: Wait>(
    rt: &R,
    alloc: Global,
    mem: &PatternMem,
    pass: &mut PoolPass,
    most: u32,
) -> Result<u64, NoMemory>
    requires exec { 0 < length mem.now.code.execs }
    requires pass { pass.old ≡ mem.now }
{
    let mut cursor = at(alloc, mem, 0)?;
    let mut count = 0u64;
    for _ in 0..most {
        if cursor.next(rt, mem, pass)?.is_some() {
            count = count.saturating_add(1);
        }
    }
    Ok(count)
}

/// The same over a code with so many frames.
fn given_of<R: Wait>(
    rt: &R,
    alloc: Global,
    code: Code,
    frames: u16,
    most: u32,
) -> Result<u64, NoMemory>
    requires exec { 0 < length code.execs }
    requires frames { (1 ≤ frames) × (frames ≤ 256) }
{
    let (mem, passes) = PatternMem::new(alloc, code, frames, 1)?;
    match passes.into_vec().pop() {
        Some(mut pass) => given(rt, alloc, &mem, &mut pass, most),
        None => Ok(0),
    }
}

/// A sink with a code in it, in version 1 where that is asked for.
fn saved(alloc: Global, code: &Code, is_old: bool) -> Result<MemSink, NoMemory> {
    let (none, nothing) = (Vec::new(alloc), Vec::new(alloc));
    let mut sink = MemSink::new(alloc, ROOM, ROOM, none, nothing)?;
    let _end = if is_old {
        save_old(code, &mut sink)
    } else {
        save(code, &mut sink)
    };
    Ok(sink)
}

/// How many bytes are saved in so many times.
fn saves(alloc: Global, code: &Code, is_old: bool, times: u32) -> Result<u64, NoMemory> {
    let mut count = 0u64;
    for _ in 0..times {
        let sink = saved(alloc, code, is_old)?;
        count = count.saturating_add(sink.bytes().len() as u64);
    }
    Ok(count)
}

/// How many bytes are loaded in so many times.
fn loads(alloc: Global, bytes: &[u8], times: u32) -> u64 {
    let mut count = 0u64;
    for _ in 0..times {
        if load(alloc, bytes).is_ok() {
            count = count.saturating_add(bytes.len() as u64);
        }
    }
    count
}

/// With how many frames a cursor gives what the word asks for; none where a walk does.
fn frames(what: &str) -> Option<u16>
    ensures { IfSome result (λ frames. (1 ≤ frames) × (frames ≤ 256)) }
{
    match what {
        "cursor" | "far1" => Some(1),
        "far2" => Some(2),
        "far64" => Some(64),
        _ => None,
    }
}

/// How many cycles come by what the word asks for, of so many.
fn cycles<R: Wait>(rt: &R, alloc: Global, what: &str, most: u32) -> Result<u64, NoMemory> {
    let bytes = if what.starts_with("far") {
        far(alloc)?
    } else {
        nest(alloc)?
    };
    match load(alloc, bytes.as_slice()) {
        Ok(code) if code.execs() > 0 => match frames(what) {
            Some(frames) => given_of(rt, alloc, code, frames, most),
            None => Ok(walked(&code, most)),
        },
        _ => Ok(0),
    }
}

/// How many bytes of a code are saved or loaded as the word asks for, so many times.
fn moved(alloc: Global, code: &Code, what: &str, times: u32) -> Result<u64, NoMemory> {
    let is_old = what.ends_with("_old");
    if what.starts_with("save") {
        return saves(alloc, code, is_old, times);
    }
    let sink = saved(alloc, code, is_old)?;
    Ok(loads(alloc, sink.bytes(), times))
}

/// What the word asks for, so many times.
fn measured<R: Wait>(rt: &R, alloc: Global, what: &str, times: u32) -> Result<u64, NoMemory> {
    if !what.starts_with("save") && !what.starts_with("load") {
        return cycles(rt, alloc, what, times);
    }
    let bytes = if what.contains("_rows") {
        many_rows(alloc)?
    } else {
        long(alloc)?
    };
    match load(alloc, bytes.as_slice()) {
        Ok(code) => moved(alloc, &code, what, times),
        Err(_) => Ok(0),
    }
}

/// Measures a code by the words behind `pages`.
pub fn run<R: Print + AllocGlobal + Wait>(rt: &R, words: &[String]) -> io::Result<()> {
    let what = match word(words, 0) {
        "" => "walk",
        what => what,
    };
    match measured(rt, rt.alloc(), what, number(words, 1)) {
        Ok(count) => println!(rt; "{count}"),
        Err(_) => println!(rt; "no memory"),
    }
}
