//! The walk through a burst, with open bursts on a stack, and a mark for each burst.

ghost use Rattle.std.specs.Prelude.{◌≡◌, ◌<◌, ℕ, [], ◌∷◌, ◌++◌, Some, length, replicate, slice_get, slice_set, IfOk, OnOk};
ghost use Rattle.std.specs.List.{AllByRecursion};
ghost use Rattle.stil_ast.specs.declared.executive.Burst.{Burst};
ghost use Rattle.pattern_order.specs.Marks.{mark_at, is_fresh, is_open, is_back, fresh_of, moved_on, IsNext, IsOpened, Enters, Begins, Passes};
ghost use Rattle.pattern_order.specs.Numbers.{IsNumbered};
ghost use Rattle.pattern_order.specs.declared.meaning.Meaning.TheVariants as meaning;
ghost use Rattle.pattern_order.specs.declared.walk.Mark.TheVariants as mark;

use crate::bursts::BurstNames;
use crate::found::{macros_name, procedures_name};
use crate::meaning::Meaning;
use std::alloc::{AllocError, Global};
use stil_ast::{Burst, BurstItem};

/// What a walk knows of a burst.
#[derive(Clone, Copy, PartialEq, Eq)]
pub(crate) enum Mark {
    /// It is walked through where it is met.
    Fresh,
    /// The walk is inside it.
    Open,
    /// It is passed over where it is met.
    Closed,
}

/// A burst that is open, with the MacroDefs and Procedures that hold in it.
#[derive(Drop)]
pub(crate) struct Frame<'a> {
    pub(crate) number: usize,
    pub(crate) burst: &'a Burst,
    /// The index of the item that is met next.
    pub(crate) next: usize,
    pub(crate) macros: &'a [u8],
    pub(crate) procedures: &'a [u8],
    /// How many patterns ran before it was opened, where that is counted.
    pub(crate) begun: usize,
}

/// A name that is met.
#[derive(Drop)]
pub(crate) struct Step<'a> {
    pub(crate) burst: &'a Burst,
    pub(crate) item: &'a BurstItem,
    pub(crate) macros: &'a [u8],
    pub(crate) procedures: &'a [u8],
    pub(crate) meaning: Meaning,
    /// Whether it stands inside the burst that it names.
    pub(crate) leads_back: bool,
}

/// A walk, with the open bursts from the outermost.
#[derive(Drop)]
pub(crate) struct Walk<'n, 'a> {
    pub(crate) names: &'n BurstNames<'a>,
    pub(crate) frames: Vec<Frame<'a>>,
    pub(crate) marks: Vec<Mark>,
}

/// The mark of a burst.
fn mark_at(marks: &[Mark], number: usize) -> Mark
    ensures { result ≡ mark_at marks.now number }
{
    marks.get(number).copied().unwrap_or(Mark::Fresh)
}

/// Whether a name leads back to an open burst.
fn is_back(marks: &[Mark], meaning: Meaning) -> bool
    ensures { result ≡ is_back marks.now meaning }
{
    match meaning {
        Meaning::Burst(number) => matches!(mark_at(marks, number), Mark::Open),
        _ => false,
    }
}

/// The burst to which a name leads where that was never begun.
fn fresh_of(marks: &[Mark], meaning: Meaning) -> Option<usize>
    ensures { result ≡ fresh_of marks.now meaning }
{
    match meaning {
        Meaning::Burst(number) if matches!(mark_at(marks, number), Mark::Fresh) => Some(number),
        _ => None,
    }
}

/// A mark for each of so many bursts.
fn no_marks(alloc: Global, count: usize) -> Result<Vec<Mark>, AllocError>
    ensures count { IfOk result (λ marks. length marks.items ≡ count) }
    ensures fresh { IfOk result (λ marks. AllByRecursion (λ m. m ≡ mark.Fresh) marks.items) }
{
    let mut marks = Vec::new(alloc);
    for _ in 0..count {
        marks.push(Mark::Fresh)?;
    }
    Ok(marks)
}

/// A burst at its first item, inside others.
fn opened<'a>(
    names: &BurstNames<'a>,
    number: usize,
    macros: &'a [u8],
    procedures: &'a [u8],
    begun: usize,
) -> Frame<'a>
    requires { number < length names.now.bursts }
    ensures { IsOpened names.now number begun macros.now procedures.now result }
{
    let burst = names.burst(number);
    let items = burst.items.as_slice();
    Frame {
        number,
        burst,
        next: 0,
        macros: macros_name(items, macros),
        procedures: procedures_name(items, procedures),
        begun,
    }
}

/// An open burst behind its next name.
fn moved_on(frame: Frame<'_>) -> Frame<'_>
    requires { frame.next < length frame.burst.now.items }
    ensures { result ≡ moved_on frame.entry }
{
    let _count = frame.burst.items.len();
    Frame {
        next: frame.next + 1,
        ..frame
    }
}

impl<'n, 'a> Walk<'n, 'a> {
    /// A walk that is to begin at a burst.
    pub(crate) fn new(
        alloc: Global,
        names: &'n BurstNames<'a>,
        number: usize,
    ) -> Result<Walk<'n, 'a>, AllocError>
        requires { number < length names.now.bursts }
        ensures names { IfOk result (λ w. w.names.now ≡ names.now) }
        ensures begins { IfOk result (λ w. Begins names.now number w.marks.items w.frames.items) }
    {
        let mut walk = Walk {
            names,
            frames: Vec::new(alloc),
            marks: no_marks(alloc, names.count())?,
        };
        walk.enter(number, &[], &[], 0)?;
        Ok(walk)
    }

    /// Opens a burst inside the open ones.
    fn enter(
        &mut self,
        number: usize,
        macros: &'a [u8],
        procedures: &'a [u8],
        begun: usize,
    ) -> Result<(), AllocError>
        requires within { number < length self.old.names.now.bursts }
        requires marked { number < length self.old.marks.items }
        ensures names { self.new.names.now ≡ self.old.names.now }
        ensures enters { OnOk result (Enters self.old.names.now number begun macros.now procedures.now
            self.old.marks.items self.old.frames.items self.new.marks.items self.new.frames.items) }
    {
        let frame = opened(self.names, number, macros, procedures, begun);
        self.frames.push(frame)?;
        self.marks[number] = Mark::Open;
        Ok(())
    }

    /// Marks a burst that is not open any more.
    pub(crate) fn close(&mut self, number: usize, mark: Mark)
        requires { number < length self.old.marks.items }
        ensures names { self.new.names.now ≡ self.old.names.now }
        ensures frames { self.new.frames.items ≡ self.old.frames.items }
        ensures marks { self.new.marks.items ≡ slice_set self.old.marks.items number mark }
    {
        self.marks[number] = mark;
    }

    /// The next name of a burst inside the open ones.
    pub(crate) fn next_in(&self, frame: &Frame<'a>) -> Step<'a>
        requires numbered { IsNumbered self.now.names.now frame.now.number frame.now.burst.now }
        requires within { frame.now.next < length frame.now.burst.now.items }
        ensures { IsNext self.now.names.now self.now.marks.items frame.now result }
    {
        let meaning = self.names.meaning(frame.number, frame.next);
        Step {
            burst: frame.burst,
            item: &frame.burst.items.as_slice()[frame.next],
            macros: frame.macros,
            procedures: frame.procedures,
            meaning,
            leads_back: is_back(self.marks.as_slice(), meaning),
        }
    }

    /// Goes on behind the next name of a burst inside the open ones: into the burst that it names, unless that was
    /// begun before.
    pub(crate) fn pass(
        &mut self,
        frame: Frame<'a>,
        step: &Step<'a>,
        begun: usize,
    ) -> Result<(), AllocError>
        requires within { (number : ℕ) → step.now.meaning ≡ meaning.Burst number
            → number < length self.old.names.now.bursts }
        requires marked { length self.old.marks.items ≡ length self.old.names.now.bursts }
        requires next { frame.next < length frame.burst.now.items }
        ensures names { self.new.names.now ≡ self.old.names.now }
        ensures passes { OnOk result (Passes self.old.names.now (fresh_of self.old.marks.items step.now.meaning)
            frame.entry step.now begun self.old.marks.items self.old.frames.items self.new.marks.items
            self.new.frames.items) }
    {
        let fresh = fresh_of(self.marks.as_slice(), step.meaning);
        self.frames.push(moved_on(frame))?;
        match fresh {
            Some(number) => self.enter(number, step.macros, step.procedures, begun),
            None => Ok(()),
        }
    }
}
