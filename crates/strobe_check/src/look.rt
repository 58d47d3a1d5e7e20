//! What a look wants.

ghost use Rattle.std.specs.Prelude.{◌≡◌};
ghost use Rattle.strobe_check.specs.Look.{is_edge, is_met};
ghost use Rattle.strobe_check.specs.Step.{opened};

use tester_types::{Level, Look};

/// Whether it looks at its own instant alone.
pub fn is_edge(look: Look) -> bool
    ensures { result ≡ is_edge look }
{
    matches!(look, Look::Low | Look::High | Look::Off)
}

/// The window that it opens.
pub fn opened(look: Look) -> Option<Look>
    ensures { result ≡ opened look }
{
    match look {
        Look::LowWindow | Look::HighWindow | Look::OffWindow => Some(look),
        _ => None,
    }
}

/// Whether the level is the one that the look wants.
pub(crate) fn is_met(look: Look, level: Level) -> bool
    ensures { result ≡ is_met look level }
{
    match look {
        Look::Low | Look::LowWindow => level == Level::Zero,
        Look::High | Look::HighWindow => level == Level::One,
        Look::Off | Look::OffWindow => level == Level::Z,
        Look::Close => true,
    }
}
