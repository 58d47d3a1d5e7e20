//! The letters of what was seen.

ghost use Rattle.std.specs.Prelude.{◌≡◌};
ghost use Rattle.datalog.specs.DatalogText.{seen_letter};

use tester_types::Level;

/// The letter of the level that was seen.
pub(crate) fn seen_letter(seen: Level) -> &'static [u8]
    ensures { result.now ≡ seen_letter seen }
{
    match seen {
        Level::Zero => b"0",
        Level::One => b"1",
        Level::X => b"X",
        Level::Z => b"Z",
    }
}
