//! Why a pass gave up.

ghost use Rattle.std.specs.Prelude.{◌≡◌};
ghost use Rattle.answers.specs.Answers.{Raises};
ghost use Rattle.answers.specs.declared.short.Short.TheVariants.{NoMemory};

use std::alloc::{AllocError, AllocFailed};

/// Why a pass gave up: there was no memory, or what it read has a fault.
#[derive(Clone, Copy, Debug, PartialEq, Eq, Drop)]
pub enum Short<F> {
    NoMemory,
    Fault(F),
}

impl<F> From<AllocError> for Short<F> {
    ghost from_gives = { λ _ short. short ≡ NoMemory };

    fn from(_error: AllocError) -> Short<F> {
        Short::NoMemory
    }
}

impl<F, T: Drop> From<AllocFailed<T>> for Short<F> {
    ghost from_gives = { λ _ short. short ≡ NoMemory };

    fn from(_error: AllocFailed<T>) -> Short<F> {
        Short::NoMemory
    }
}

impl<F: Drop> Short<F> {
    /// The same of a pass above, whose faults are made of those of this one.
    pub fn raised<G: From<F>>(self) -> Short<G>
        ensures { Raises G.from_gives self result }
    {
        match self {
            Short::NoMemory => Short::NoMemory,
            Short::Fault(fault) => Short::Fault(G::from(fault)),
        }
    }
}
