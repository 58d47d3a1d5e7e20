//! Laws of the cycles of the blocks that a flat text says.

ghost use Rattle.flat_cycles.specs.Laws.{CyclesAreSame, CompilingIsFine, SmallAreFine};

/// The cycles of the executives are those of the code's executives, one by one.
pub fn cycles_are_same()
    ensures { CyclesAreSame }
{}

/// A fault of compiling is that something is too large.
pub fn compiling_is_fine()
    ensures { CompilingIsFine }
{}

/// There is none where the executives are small.
pub fn small_are_fine()
    ensures { SmallAreFine }
{}
