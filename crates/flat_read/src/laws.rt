//! Laws of how flat texts are read.

ghost use Rattle.flat_read.specs.Laws.{SaidIsRead};

/// A text whose lexemes are those of what a code says is read as the code's blocks, or a Timing has too many tables.
pub fn said_is_read()
    ensures { SaidIsRead }
{}
