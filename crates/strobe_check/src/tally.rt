//! A count of fails that keeps the first of them.

ghost use Rattle.std.specs.Prelude.{◌≡◌, [], ◌∷◌, IfOk};
ghost use Rattle.strobe_check.specs.Count.{HasCounted, Counts};

use std::alloc::Global;
use std::marker::Model;
use tester_types::{Fail, FailList, NoMemory};

/// Counts fails up to the largest `u64`, and keeps the first in room that is reserved when it is made.
#[derive(Drop)]
pub(crate) struct Tally {
    kept: Vec<Fail>,
    keep: usize,
    total: u64,
}

impl Model for Tally {
    ghost use Rattle.std.specs.Prelude.{◌≤◌, vec_len, vec_capacity};
    ghost use Rattle.strobe_check.specs.Count.{Count};

    ghost Value = { Count };

    ghost view = { λ t. record { keep = t.keep; kept = t.kept.items; total = t.total } };

    ghost invariant = { λ t. (vec_len t.kept ≤ t.keep) × (t.keep ≤ vec_capacity t.kept) };
}

impl Tally {
    pub fn new(alloc: Global, keep: u16) -> Result<Self, NoMemory>
        ensures { IfOk result (λ tally. HasCounted keep [] tally) }
    {
        let keep = usize::from(keep);
        Ok(Tally {
            kept: Vec::with_capacity(alloc, keep)?,
            keep,
            total: 0,
        })
    }

    /// One more fail.
    pub fn count(&mut self, fail: Fail)
        ensures { Counts (fail ∷ []) self.old self.new }
    {
        if self.kept.len() < self.keep {
            self.kept.push_reserved(fail);
        }
        self.total = self.total.saturating_add(1);
    }

    pub fn total(&self) -> u64
        ensures { result ≡ self.now.total }
    {
        self.total
    }

    pub fn into_kept(self) -> FailList
        ensures { result ≡ self.kept }
    {
        FailList::from_vec(self.kept)
    }
}
