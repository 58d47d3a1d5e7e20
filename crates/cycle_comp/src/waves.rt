//! Whether a table defines the characters of signals (IEEE 1450-1999, clause 18).

ghost use Rattle.std.specs.Prelude.{◌≡◌, ◌≤◌, ◌^◌, length, slice_get};
ghost use Rattle.stil_ast.specs.Faults.CodeFaults.{has_wave, have_waves};

use wave_tables::WaveSet;

/// Whether the table defines the character of a signal, if it has one.
pub(crate) fn has_wave(tables: &WaveSet, table: u16, signal: u16, character: Option<u8>) -> bool
    ensures { result ≡ has_wave (slice_get tables.now table) signal character }
{
    match character {
        Some(character) => tables.wave(table, signal, character).is_some(),
        None => true,
    }
}

/// The same of each signal.
pub(crate) fn have_waves(tables: &WaveSet, table: u16, characters: &[Option<u8>]) -> bool
    requires { length characters.now ≤ 2 ^ 16 }
    ensures { result ≡ have_waves (slice_get tables.now table) 0 characters.now }
{
    for (signal, character) in characters.iter().enumerate() {
        if !has_wave(tables, table, signal as u16, *character) {
            return false;
        }
    }
    true
}
