//! What a memory shows: the same cycles as a walk, whatever pages its pool holds and whoever else asks it.

ghost use Rattle.std.specs.Prelude.{◌≡◌, ◌<◌, ◌≤◌, length};
ghost use Rattle.packed_code.specs.Cycles.{pages_of};
ghost use Rattle.pattern_mem.specs.Cursor.{IsCursorOf};

use crate::programs::long_code;
use page_code::walk;
use pattern_mem::*;
use std::alloc::Global;
use std::sync::{Arc, Wait};
use std::test::*;
use std::thread::join_mut;
use tester_types::NoMemory;

/// How many cycles a new cursor and a walk give alike before both are used up, at most so many; none where they differ.
fn alike<R: Wait>(
    rt: &R,
    mem: &PatternMem,
    pass: &mut PoolPass,
    cursor: &mut Cursor,
    most: u32,
) -> Result<Option<u32>, NoMemory>
    requires exec { 0 < length mem.now.code.execs }
    requires pass { pass.old ≡ mem.now }
    requires cursor { IsCursorOf mem.now.code cursor.old }
    ensures pass { pass.new ≡ pass.old }
    ensures cursor { IsCursorOf mem.now.code cursor.new }
{
    let mut place = walk(mem.code(), 0);
    for count in 0..most {
        let given = cursor.next(rt, mem, pass)?;
        if given != place.next(mem.code()) {
            return Ok(None);
        }
        if given.is_none() {
            return Ok(Some(count));
        }
    }
    Ok(Some(most))
}

/// How many cycles of the program a memory with so many frames gives alike.
fn alike_with<R: Wait>(rt: &R, alloc: Global, frames: u16) -> Result<Option<u32>, Fail>
    requires { (1 ≤ frames) × (frames ≤ 256) }
{
    let code = long_code(alloc)?;
    if code.execs() == 0 {
        return Ok(None);
    }
    let (mem, passes) = PatternMem::new(alloc, code, frames, 1)?;
    match passes.into_vec().pop() {
        Some(mut pass) => {
            let mut cursor = at(alloc, &mem, 0)?;
            Ok(alike(rt, &mem, &mut pass, &mut cursor, 5000)?)
        }
        None => Ok(None),
    }
}

/// Whether a pool answers that the page was among its entries; none where there is no such page.
fn hits(
    pool: &mut PoolState,
    pages: u32,
    page: u32,
    window: &mut Window,
) -> Result<Option<bool>, NoMemory>
    requires { pages ≡ length (pages_of pool.old.code) }
    ensures { pool.new.code ≡ pool.old.code }
{
    if page >= pages {
        return Ok(None);
    }
    match pool.fetch(page, window) {
        Ok(fetched) => Ok(Some(fetched == Fetched::Hit)),
        Err(fault) => Err(fault),
    }
}

#[test]
fn two_frames_hold_the_pages_that_were_asked_for_last(rt: HostRuntime) -> Result<(), Fail> {
    let code = long_code(rt.alloc())?;
    let pages = code.pages();
    assert_eq!(rt; pages, 3);
    let mut pool = PoolState::new(rt.alloc(), Arc::new(rt.alloc(), code)?, 2)?;
    let mut window = Window::new(rt.alloc())?;
    for (page, is_hit) in [
        (0, false),
        (1, false),
        (0, true),
        (2, false),
        (1, false),
        (2, true),
        (1, true),
        (0, false),
    ] {
        assert_eq!(rt; hits(&mut pool, pages, page, &mut window)?, Some(is_hit));
    }
    Ok(())
}

#[test]
fn a_loop_across_a_border_with_each_number_of_frames(rt: HostRuntime) -> Result<(), Fail> {
    for frames in [1, 2, 64] {
        assert_eq!(rt; alike_with(&rt, rt.alloc(), frames)?, Some(1674));
    }
    Ok(())
}

/// Each walks the loop across the border of two pages with one frame.
#[test]
fn two_threads_walk_one_code(rt: HostRuntime) -> Result<(), Fail> {
    let code = long_code(rt.alloc())?;
    assert!(rt; code.execs() > 0);
    let (mem, passes) = PatternMem::new(rt.alloc(), code, 1, 2)?;
    let mut passes = passes.into_vec();
    let mut first = passes.pop().ok_or("no pass")?;
    let mut second = passes.pop().ok_or("no second pass")?;
    let mut here = at(rt.alloc(), &mem, 0)?;
    let mut there = at(rt.alloc(), &mem, 0)?;
    let (one, other) = join_mut(
        &rt,
        &mut || alike(&rt, &mem, &mut first, &mut here, 5000),
        &mut || alike(&rt, &mem, &mut second, &mut there, 5000),
    );
    assert_eq!(rt; one?, Some(1674));
    assert_eq!(rt; other?, Some(1674));
    Ok(())
}
