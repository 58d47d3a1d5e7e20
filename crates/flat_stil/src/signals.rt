//! The signals of a flat text.

ghost use Rattle.std.specs.Prelude.{◌≡◌, [], ◌∷◌, map};
ghost use Rattle.flat_parts.specs.FlatText.{direction_word, signal_line, signal_lines};
ghost use Rattle.flat_stil.specs.Working.{prints};

use crate::sheet::{Part, Sheet};
use packed_code::{Code, CodeSignal, Direction};

/// The word of a direction.
fn direction_word(direction: Direction) -> &'static [u8]
    ensures { result.now ≡ direction_word direction }
{
    match direction {
        Direction::In => b"In",
        Direction::Out => b"Out",
        Direction::InOut => b"InOut",
        Direction::Supply => b"Supply",
        Direction::Pseudo => b"Pseudo",
    }
}

/// Writes the line of a signal.
fn put_signal(sheet: &mut Sheet, signal: &CodeSignal)
    ensures { sheet.new ≡ prints sheet.old (signal_line signal.now ∷ []) }
{
    sheet.put_line(&[
        Part::Name(signal.name.as_slice()),
        Part::Text(b" "),
        Part::Text(direction_word(signal.direction)),
        Part::Text(b";"),
    ]);
}

/// Writes the lines of signals.
fn put_each(sheet: &mut Sheet, signals: &[CodeSignal])
    ensures { sheet.new ≡ prints sheet.old (map signal_line signals.now) }
{
    for signal in signals {
        put_signal(sheet, signal);
    }
}

/// Writes the signals of a code.
pub(crate) fn put_signals(sheet: &mut Sheet, code: &Code)
    ensures { sheet.new ≡ prints sheet.old (signal_lines code.now) }
{
    sheet.put_line(&[Part::Text(b"Signals {")]);
    put_each(sheet, code.signal_list());
    sheet.close();
}
