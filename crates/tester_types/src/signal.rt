//! What signals and scan cells are for.

ghost use Rattle.std.specs.Prelude.{◌≡◌};
ghost use Rattle.tester_types.specs.Directions.{direction_code, direction_of};

/// What a signal is for (IEEE 1450-1999, clause 14).
#[derive(Clone, Copy, Debug, PartialEq, Eq)]
pub enum Direction {
    In,
    Out,
    InOut,
    Supply,
    Pseudo,
}

/// A direction's number.
pub fn direction_byte(direction: Direction) -> u8
    ensures { result ≡ direction_code direction }
{
    match direction {
        Direction::In => 0,
        Direction::Out => 1,
        Direction::InOut => 2,
        Direction::Supply => 3,
        Direction::Pseudo => 4,
    }
}

/// The direction of a number.
pub fn direction_of_byte(byte: u8) -> Option<Direction>
    ensures { result ≡ direction_of byte }
{
    match byte {
        0 => Some(Direction::In),
        1 => Some(Direction::Out),
        2 => Some(Direction::InOut),
        3 => Some(Direction::Supply),
        4 => Some(Direction::Pseudo),
        _ => None,
    }
}
