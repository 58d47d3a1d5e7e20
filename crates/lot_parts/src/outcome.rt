//! How a run of the program ends.

ghost use Rattle.std.specs.Prelude.{◌≡◌};
ghost use Rattle.tool_inputs.specs.Endings.{memory_line};
ghost use Rattle.tool_inputs.specs.declared.status.Status.TheVariants.{OutOfMemory};
ghost use Rattle.lot_parts.specs.Endings.{EndsAs};
ghost use Rattle.lot_parts.specs.Outcomes.{outcome_number};
ghost use Rattle.lot_parts.specs.declared.outcome.Outcome.TheVariants.{Ended};

use tester_types::Sink;
use tool_inputs::{Status, no_memory};

/// How a run ended. The program's exit status is its number.
#[derive(Clone, Copy, Debug, PartialEq, Eq)]
pub enum Outcome {
    /// As a run of a tester ends.
    Ended(Status),
    /// A file is no text of its part.
    RefusedPart,
}

impl Outcome {
    /// The exit status.
    pub fn number(self) -> u8
        ensures { result ≡ outcome_number self }
    {
        match self {
            Outcome::Ended(status) => status.number(),
            Outcome::RefusedPart => 14,
        }
    }
}

/// Says that there was no memory.
pub fn out_of_memory<K: Sink>(out: &mut K) -> Outcome
    ensures { EndsAs (K.told out.old) (K.faults out.old)
        (Ended OutOfMemory) memory_line result (K.told out.new) (K.faults out.new) }
{
    Outcome::Ended(no_memory(out))
}
