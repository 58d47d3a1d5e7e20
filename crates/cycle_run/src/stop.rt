//! Why a cycle ends before its last moment.

ghost use Rattle.std.specs.Prelude.{◌≡◌};
ghost use Rattle.cycle_run.specs.declared.stop.Stop.TheVariants as Stop;

use std::alloc::AllocError;
use tester_types::NoMemory;

/// Why a cycle ends before its last moment.
#[derive(Clone, Copy)]
pub enum Stop {
    /// Contact was lost, at an instant in femtoseconds after the start of the try.
    Contact(u128),
    NoMemory,
}

impl From<NoMemory> for Stop {
    ghost from_gives = { λ _ e. e ≡ Stop.NoMemory };

    fn from(_e: NoMemory) -> Stop {
        Stop::NoMemory
    }
}

impl From<AllocError> for Stop {
    ghost from_gives = { λ _ e. e ≡ Stop.NoMemory };

    fn from(_e: AllocError) -> Stop {
        Stop::NoMemory
    }
}
