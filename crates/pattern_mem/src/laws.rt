//! Laws of cycles that are given one by one: a walk over a code and a cursor over its memory, where the same cycles are
//! still to come, give the same.

ghost use Rattle.std.specs.Prelude.{◌≡◌, List, Option, length};
ghost use Rattle.tester_types.specs.declared.cycle.Cycle.{Cycle};
ghost use Rattle.pattern_mem.specs.Nexts.{IsNext, AreNexts};

/// What comes next is one, and so is what comes behind it.
pub fn one_next()
    ensures { (before : List Cycle) (answer other : Option Cycle) (after later : List Cycle)
        → IsNext before answer after → IsNext before other later → (answer ≡ other) × (after ≡ later) }
{}

/// As many answers, one after another, are the same.
pub fn one_whole()
    ensures { (before : List Cycle) (answers others : List (Option Cycle)) (after later : List Cycle)
        → AreNexts before answers after → AreNexts before others later → length answers ≡ length others
        → (answers ≡ others) × (after ≡ later) }
{}
