//! Which texts are saved and written flat, by plain numbers of a text.

ghost use Rattle.text_commands.specs.Laws.{SavedByNumbers, FlatByNumbers};

/// A text without a fault is saved where its numbers make few bytes.
pub fn saved_by_numbers()
    ensures { SavedByNumbers }
{}

/// The flat text of a text without a fault is written where its numbers are within bounds.
pub fn flat_by_numbers()
    ensures { FlatByNumbers }
{}
