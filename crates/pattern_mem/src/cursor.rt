//! Cursors: the cycles of an executive of a code in memory, one by one.

ghost use Rattle.std.specs.Prelude.{◌≡◌, ◌<◌, ◌^◌, [], ◌++◌, Some, IfOk, OnOk, OnErr, IfNone, IfSome, length, option_to_list, slice_get};
ghost use Rattle.packed_code.specs.Course.{Steps, coming};
ghost use Rattle.packed_code.specs.Cycles.{cycles_of, pages_of};
ghost use Rattle.packed_code.specs.Walk.{IsOf};
ghost use Rattle.pattern_mem.specs.Cursor.{instrs_of, cycles_to_come, IsPlaced, IsCursorOf, IsSameBut};
ghost use Rattle.pattern_mem.specs.Pool.{page_at, shown};
ghost use Rattle.pattern_mem.specs.Nexts.{IsNext};

use crate::memory::{PatternMem, PoolPass};
use crate::window::Window;
use packed_code::{Course, CourseStep, Entry, Instr, PAGE};
use std::alloc::Global;
use std::sync::Wait;
use tester_types::{Cycle, NoMemory};

/// A place in the cycles of an executive, with a window of its own that shows the page on which it stands. It asks the
/// pool only where it leaves that page.
#[derive(Drop)]
pub struct Cursor {
    exec: u16,
    first: u32,
    start: u128,
    course: Course,
    window: Window,
}

/// A cursor over the cycles of an executive, which gives them one by one from the first on. It asks the pool for nothing
/// yet, and is an `Err` only for want of memory.
pub fn at(alloc: Global, mem: &PatternMem, exec: u16) -> Result<Cursor, NoMemory>
    requires { exec < length mem.now.code.execs }
    ensures of { IfOk result (λ cursor. IsCursorOf mem.now.code cursor) }
    ensures coming { IfOk result (λ cursor. cycles_to_come mem.now.code cursor ≡ cycles_of mem.now.code exec) }
{
    let window = Window::new(alloc)?;
    let code = mem.code();
    let _conditions = code.signals();
    Ok(Cursor {
        exec,
        first: code.page_of(exec, 0),
        start: 0,
        course: Course::new(),
        window,
    })
}

impl Cursor {
    /// The next cycle, or `None` where they are used up. The memory is the one that the cursor was made over, and the pass
    /// is for it. It may wait for other threads that ask the pool. It is an `Err` only for want of memory, and the same
    /// cycles are to come then.
    pub fn next<R: Wait>(
        &mut self,
        rt: &R,
        mem: &PatternMem,
        pass: &mut PoolPass,
    ) -> Result<Option<Cycle>, NoMemory>
        requires of { IsCursorOf mem.now.code self.old }
        requires pass { pass.old ≡ mem.now }
        ensures of { IsCursorOf mem.now.code self.new }
        ensures pass { pass.new ≡ pass.old }
        ensures given { IfOk result (λ given.
            IsNext (cycles_to_come mem.now.code self.old) given (cycles_to_come mem.now.code self.new)) }
        ensures failed { OnErr result (cycles_to_come mem.now.code self.new ≡ cycles_to_come mem.now.code self.old) }
        ensures named { IfOk result (λ given. IfSome given (λ cycle. IsOf mem.now.code cycle.table cycle.row)) }
        ensures early { IfOk result (λ given. IfSome given (λ cycle. cycle.start < 2 ^ 88)) }
    {
        let Some(entry) = self.entry(rt, mem, pass)? else {
            return Ok(None);
        };
        let start = self.start;
        self.start += u128::from(mem.code().table(entry.table).period);
        Ok(Some(Cycle {
            start,
            table: entry.table,
            row: entry.row,
            mark: entry.mark,
        }))
    }

    /// The next entry.
    fn entry<R: Wait>(
        &mut self,
        rt: &R,
        mem: &PatternMem,
        pass: &mut PoolPass,
    ) -> Result<Option<Entry>, NoMemory>
        requires placed { IsPlaced mem.now.code self.old }
        requires pass { pass.old ≡ mem.now }
        ensures placed { IsPlaced mem.now.code self.new }
        ensures same { IsSameBut self.old self.new }
        ensures pass { pass.new ≡ pass.old }
        ensures given { IfOk result (λ given. coming (instrs_of mem.now.code self.old.exec) self.old.course
            ≡ option_to_list given ++ coming (instrs_of mem.now.code self.old.exec) self.new.course) }
        ensures none { IfOk result (λ given.
            IfNone given (coming (instrs_of mem.now.code self.old.exec) self.new.course ≡ [])) }
        ensures failed { OnErr result (coming (instrs_of mem.now.code self.old.exec) self.new.course
            ≡ coming (instrs_of mem.now.code self.old.exec) self.old.course) }
    {
        let mut step = self.step(rt, mem, pass)?;
        while matches!(step, CourseStep::Moved) {
            step = self.step(rt, mem, pass)?;
        }
        match step {
            CourseStep::Gave(entry) => Ok(Some(entry)),
            _ => Ok(None),
        }
    }

    /// Takes the instruction at its place.
    #[inline(always)]
    fn step<R: Wait>(
        &mut self,
        rt: &R,
        mem: &PatternMem,
        pass: &mut PoolPass,
    ) -> Result<CourseStep, NoMemory>
        requires placed { IsPlaced mem.now.code self.old }
        requires pass { pass.old ≡ mem.now }
        ensures placed { IsPlaced mem.now.code self.new }
        ensures same { IsSameBut self.old self.new }
        ensures pass { pass.new ≡ pass.old }
        ensures steps { IfOk result (λ step.
            Steps (instrs_of mem.now.code self.old.exec) self.old.course step self.new.course) }
        ensures failed { OnErr result (self.new.course ≡ self.old.course) }
    {
        match self.instr(rt, mem, pass) {
            Ok(instr) => Ok(self.course.step(instr)),
            Err(fault) => Err(fault),
        }
    }

    /// The instruction at its place, which its window then shows.
    #[inline(always)]
    fn instr<R: Wait>(
        &mut self,
        rt: &R,
        mem: &PatternMem,
        pass: &mut PoolPass,
    ) -> Result<Instr, NoMemory>
        requires placed { IsPlaced mem.now.code self.old }
        requires pass { pass.old ≡ mem.now }
        ensures placed { IsPlaced mem.now.code self.new }
        ensures same { IsSameBut self.old self.new }
        ensures course { self.new.course ≡ self.old.course }
        ensures pass { pass.new ≡ pass.old }
        ensures instr { IfOk result (λ instr.
            slice_get (instrs_of mem.now.code self.old.exec) self.old.course.at ≡ Some instr) }
    {
        let place = self.course.place();
        match self.show(rt, mem, pass, self.first + (place / PAGE) as u32) {
            Ok(()) => Ok(self.window.instr(place % PAGE)),
            Err(fault) => Err(fault),
        }
    }

    /// Shows a page in its window, and asks the pool for it only where the window has another.
    #[inline(always)]
    fn show<R: Wait>(
        &mut self,
        rt: &R,
        mem: &PatternMem,
        pass: &mut PoolPass,
        page: u32,
    ) -> Result<(), NoMemory>
        requires placed { IsPlaced mem.now.code self.old }
        requires pass { pass.old ≡ mem.now }
        requires page { page < length (pages_of mem.now.code) }
        ensures placed { IsPlaced mem.now.code self.new }
        ensures same { IsSameBut self.old self.new }
        ensures course { self.new.course ≡ self.old.course }
        ensures pass { pass.new ≡ pass.old }
        ensures shown { OnOk result (shown self.new.window ≡ page_at mem.now.code page) }
    {
        if self.window.has(page) {
            return Ok(());
        }
        match pass.fetch(rt, mem, page, &mut self.window) {
            Ok(_) => Ok(()),
            Err(fault) => Err(fault),
        }
    }
}
