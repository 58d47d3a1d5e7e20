//! A walk over the cycles of an executive.

ghost use Rattle.std.specs.Prelude.{◌≡◌, ◌^◌, ◌<◌, ◌++◌, [], IfNone, IfSome, option_to_list, length};
ghost use Rattle.packed_code.specs.Course.{coming, IsOn};
ghost use Rattle.packed_code.specs.Walk.{IsOf, IsOver, cycles_left};
ghost use Rattle.packed_code.specs.Cycles.{cycles_of};

use crate::code::Code;
use crate::course::{Course, CourseStep};
use crate::instr::Entry;
use crate::packed::PackedInstr;
use tester_types::Cycle;

/// A place in the cycles of an executive. It keeps its open loops, at most 64, in place.
#[derive(Debug, Drop)]
pub struct Walk {
    exec: u16,
    start: u128,
    course: Course,
}

impl Walk {
    /// The next cycle, or `None` where they are used up. The code is the one that the walk was begun over.
    pub fn next(&mut self, code: &Code) -> Option<Cycle>
        requires { IsOver code.now self.old }
        ensures over { IsOver code.now self.new }
        ensures given { cycles_left code.now self.old ≡ option_to_list result ++ cycles_left code.now self.new }
        ensures none { IfNone result (cycles_left code.now self.new ≡ []) }
        ensures named { IfSome result (λ cycle. IsOf code.now cycle.table cycle.row) }
        ensures early { IfSome result (λ cycle. cycle.start < 2 ^ 88) }
    {
        let entry = next_entry(&mut self.course, code.instructions(self.exec))?;
        let start = self.start;
        self.start += u128::from(code.table(entry.table).period);
        Some(Cycle {
            start,
            table: entry.table,
            row: entry.row,
            mark: entry.mark,
        })
    }

    /// The beginning of an executive's cycles.
    pub(crate) fn begun(code: &Code, exec: u16) -> Walk
        requires { exec < length code.now.execs }
        ensures over { IsOver code.now result }
        ensures coming { cycles_left code.now result ≡ cycles_of code.now exec }
    {
        let _conditions = code.signals();
        Walk {
            exec,
            start: 0,
            course: Course::new(),
        }
    }
}

/// What the next cycle of these instructions runs, or `None` where the cycles are used up.
fn next_entry(course: &mut Course, code: &[PackedInstr]) -> Option<Entry>
    requires { IsOn code.now course.old }
    ensures on { IsOn code.now course.new }
    ensures given { coming code.now course.old ≡ option_to_list result ++ coming code.now course.new }
    ensures none { IfNone result (coming code.now course.new ≡ []) }
{
    let mut step = course.step(code[course.place()].instr());
    while matches!(step, CourseStep::Moved) {
        step = course.step(code[course.place()].instr());
    }
    match step {
        CourseStep::Gave(entry) => Some(entry),
        _ => None,
    }
}
