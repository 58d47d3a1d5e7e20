//! A walk over instructions, which gives their cycles one by one.

ghost use Rattle.std.specs.Prelude.{◌≡◌, ◌<◌, List, length, false};
ghost use Rattle.packed_code.specs.declared.instr.Instr.TheVariants.{Run, Loop, End};
ghost use Rattle.packed_code.specs.Meaning.{Means};
ghost use Rattle.packed_code.specs.Whole.{IsRest};
ghost use Rattle.packed_code.specs.Course.{coming, IsOn, StandsAt, Steps};

use crate::instr::{Entry, Instr};
use text_bytes::DEEPEST_LOOPS;

/// A loop that is open: the place of its body's first instruction, and how many passes follow the
/// one that runs.
#[derive(Clone, Copy, Debug)]
struct OpenLoop {
    start: usize,
    left: u64,
}

/// What a step of a walk came to.
#[derive(Clone, Copy, Debug, PartialEq, Eq)]
pub enum CourseStep {
    /// It gave a cycle.
    Gave(Entry),
    /// It went on to another place without one.
    Moved,
    /// The cycles are used up.
    Over,
}

/// A place in the instructions of an executive, with the loops that are open there.
#[derive(Debug, Drop)]
pub struct Course {
    at: usize,
    taken: u32,
    depth: usize,
    loops: [OpenLoop; DEEPEST_LOOPS],
}

impl Course {
    /// The beginning.
    pub fn new() -> Course
        ensures on { (code : List Instr) → IsRest 0 false code → IsOn code result }
        ensures coming { (code : List Instr) → coming code result ≡ Means code }
    {
        Course {
            at: 0,
            taken: 0,
            depth: 0,
            loops: [OpenLoop { start: 0, left: 0 }; DEEPEST_LOOPS],
        }
    }

    /// The place of the instruction that the next step takes, counted from the first of the executive.
    pub fn place(&self) -> usize
        ensures place { result ≡ self.now.at }
        ensures inside { (code : List Instr) → IsOn code self.now → result < length code }
    {
        self.at
    }

    /// Takes the instruction at its place: gives a cycle, or goes on without one, or is over.
    pub fn step(&mut self, instr: Instr) -> CourseStep
        requires { (code : List Instr) × StandsAt code self.old instr }
        ensures { (code : List Instr) → StandsAt code self.old instr → Steps code self.old result self.new }
    {
        match instr {
            Instr::Run {
                table,
                row,
                mark,
                times,
            } => self.run(Entry { table, row, mark }, times),
            Instr::Loop { times } => self.enter(times),
            Instr::End => self.end_pass(),
            Instr::Done => CourseStep::Over,
        }
    }

    /// Gives a cycle of a Run, or leaves it where all were taken.
    fn run(&mut self, entry: Entry, times: u32) -> CourseStep
        requires { (code : List Instr) × StandsAt code self.old (Run entry.table entry.row entry.mark times) }
        ensures { (code : List Instr) → StandsAt code self.old (Run entry.table entry.row entry.mark times)
            → Steps code self.old result self.new }
    {
        if self.taken == times {
            self.at += 1;
            self.taken = 0;
            return CourseStep::Moved;
        }
        self.taken += 1;
        CourseStep::Gave(entry)
    }

    /// Goes into a loop.
    fn enter(&mut self, times: u64) -> CourseStep
        requires { (code : List Instr) × StandsAt code self.old (Loop times) }
        ensures { (code : List Instr) → StandsAt code self.old (Loop times) → Steps code self.old result self.new }
    {
        self.at += 1;
        self.loops[self.depth] = OpenLoop {
            start: self.at,
            left: times - 1,
        };
        self.depth += 1;
        CourseStep::Moved
    }

    /// Ends a pass: goes back to the body where a pass is left, and else out of the loop.
    fn end_pass(&mut self) -> CourseStep
        requires { (code : List Instr) × StandsAt code self.old End }
        ensures { (code : List Instr) → StandsAt code self.old End → Steps code self.old result self.new }
    {
        let innermost = self.loops[self.depth - 1];
        if innermost.left == 0 {
            self.depth -= 1;
            self.at += 1;
            return CourseStep::Moved;
        }
        self.loops[self.depth - 1] = OpenLoop {
            start: innermost.start,
            left: innermost.left - 1,
        };
        self.at = innermost.start;
        CourseStep::Moved
    }
}
