//! Why a plan is refused.

ghost use Rattle.std.specs.Prelude.{◌≡◌};
ghost use Rattle.plan_rows.specs.declared.fault.PlanFault.TheVariants.{NoMemory};

use std::alloc::AllocError;
use tester_types::{NoMemory, Text};

/// Why a plan is refused. Rows are counted from 1.
#[derive(Debug, Drop)]
pub enum PlanFault {
    NoMemory,
    /// The row has none of the forms, or stands where it may not.
    Shape(u32),
    /// The row names a die, a signal or a net that isn't there.
    UnknownName(u32),
    /// The row says again what an earlier one said.
    Twice(u32),
    /// A number of the row is out of its range.
    OutOfRange(u32),
    /// The skew of the row moves an event out of its cycle.
    SkewOutside(u32),
    /// The signal of this name has no net that fits it.
    Unbound(Text),
}

impl From<NoMemory> for PlanFault {
    ghost from_gives = { λ _ e. e ≡ NoMemory };

    fn from(_e: NoMemory) -> PlanFault {
        PlanFault::NoMemory
    }
}

impl From<AllocError> for PlanFault {
    ghost from_gives = { λ _ e. e ≡ NoMemory };

    fn from(_e: AllocError) -> PlanFault {
        PlanFault::NoMemory
    }
}
