//! Why there is no tape of a try.

ghost use Rattle.std.specs.Prelude.{◌≡◌};
ghost use Rattle.vcd_dump.specs.declared.fault.TapeFault.TheVariants as fault;

use tester_types::NoMemory;

/// Why there is no tape of a try.
#[derive(Clone, Copy, Debug, PartialEq, Eq)]
pub enum TapeFault {
    NoMemory,
    /// It has more drives than a dump may have.
    TapeTooLong,
}

impl From<NoMemory> for TapeFault {
    ghost from_gives = { λ _ e. e ≡ fault.NoMemory };

    fn from(_e: NoMemory) -> TapeFault {
        TapeFault::NoMemory
    }
}
