//! A counter of evaluations.
ghost use Rattle.std.specs.Prelude.{◌≡◌, ◌≤◌, ◌+◌};

use std::marker::{Model, PhantomData};

/// How many gates were evaluated, as far as that fits. `L` names what is counted.
#[derive(Drop)]
pub struct Steps<L> {
    count: u64,
    ledger: PhantomData<L>,
}

impl<L> Model for Steps<L> {
    ghost use Rattle.std.specs.Prelude.{ℕ};

    ghost Value = { ℕ };

    ghost view = { λ s. s.count };
}

impl<L> Steps<L> {
    /// Nothing is counted yet.
    pub fn new() -> Self
        ensures { result ≡ 0 }
    {
        Steps {
            count: 0,
            ledger: PhantomData,
        }
    }

    /// What is counted so far.
    pub fn count(&self) -> u64
        ensures { result ≡ self.now }
    {
        self.count
    }

    /// Counts so many more; the count stays at the greatest number where it doesn't fit.
    pub(crate) fn add(&mut self, more: usize)
        ensures most { self.new ≤ self.old + more }
        ensures rises { self.old ≤ self.new }
    {
        self.count = self.count.saturating_add(more as u64);
    }
}
