//! Laws of the blocks that a flat text says.

ghost use Rattle.flat_fine.specs.Laws.{NamesAreFine, ExecutivesAreFine, FewAreFine};

/// The signals have no fault.
pub fn names_are_fine()
    ensures { NamesAreFine }
{}

/// A fault of the executives is that something is too large.
pub fn executives_are_fine()
    ensures { ExecutivesAreFine }
{}

/// They have none where they are few and shallow.
pub fn few_are_fine()
    ensures { FewAreFine }
{}
