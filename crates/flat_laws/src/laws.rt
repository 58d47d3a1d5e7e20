//! Laws of the flat text of a code.

ghost use Rattle.flat_laws.specs.Laws.{FaultsAreLimits, FlatIsFine, ProgramIsSame};

/// A fault of a flat text is that it is beyond a limit.
pub fn faults_are_limits()
    ensures { FaultsAreLimits }
{}

/// Where it has none, its signals, executives and cycles are those of the code.
pub fn program_is_same()
    ensures { ProgramIsSame }
{}

/// It has none where it is within the limits.
pub fn flat_is_fine()
    ensures { FlatIsFine }
{}
