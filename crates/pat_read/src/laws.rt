//! What follows for bodies that are read.

ghost use Rattle.pat_read.specs.Accepted.{BodiesHaveForm};

/// A body that is read of a text's tokens has the form that later readers stand on: names, lines, characters and counts
/// in their ranges, and Stop at a Pattern's top level alone.
pub fn bodies_have_form()
    ensures { BodiesHaveForm }
{}
