//! Why tables are refused.

ghost use Rattle.std.specs.Prelude.{◌≡◌};
ghost use Rattle.answers.specs.declared.short.Short.TheVariants.{Fault};

use answers::Short;
use stil_ast::StilKind;

/// A fault of this kind at this line of the executive's Timing blocks.
#[derive(Clone, Copy, Debug, PartialEq, Eq)]
pub(crate) struct LineFault {
    pub(crate) kind: StilKind,
    pub(crate) line: u32,
}

/// Want of memory, or a fault at a line.
pub(crate) type Trouble = Short<LineFault>;

/// The refusal for a fault of this kind at this line.
pub(crate) fn fault(kind: StilKind, line: u32) -> Trouble
    ensures { result ≡ Fault (record { kind = kind; line = line }) }
{
    Short::Fault(LineFault { kind, line })
}
