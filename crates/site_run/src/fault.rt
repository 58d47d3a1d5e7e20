//! Why a site can't go on.

ghost use Rattle.std.specs.Prelude.{◌≡◌};
ghost use Rattle.site_run.specs.declared.fault.SiteFault.TheVariants as SiteFault;

use tester_types::NoMemory;

/// Why a site can't go on. It is spent then.
#[derive(Clone, Copy, Debug, PartialEq, Eq)]
pub enum SiteFault {
    NoMemory,
}

impl From<NoMemory> for SiteFault {
    ghost from_gives = { λ _ e. e ≡ SiteFault.NoMemory };

    fn from(_e: NoMemory) -> SiteFault {
        SiteFault::NoMemory
    }
}
