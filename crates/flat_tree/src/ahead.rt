//! What is set ahead of a place, before any vector, loop or save.

ghost use Rattle.std.specs.Prelude.{◌≡◌, ◌<◌, Bool, false, true, IfOk, length, replicate, slice_index_or, slice_set};
ghost use Rattle.flat_tree.specs.Leaning.{none_ahead};

use std::alloc::{AllocError, Global};
use std::marker::Model;

/// The table and the characters that are set ahead. Each is marked with the number of the last time when all was
/// forgotten, so that to forget takes no time.
#[derive(Drop)]
pub struct Ahead {
    table: bool,
    marks: Vec<u32>,
    round: u32,
}

impl Model for Ahead {
    ghost use Rattle.flat_tree.specs.Lean.{Ahead as Told};

    ghost Value = { Told };

    ghost use Rattle.std.specs.Prelude.{◌==◌, ◌≤◌, map, All};

    ghost view = { λ a. record { table = a.table; signals = map (λ m. m == a.round) a.marks.items } };

    ghost invariant = { λ a. All (λ m. m ≤ a.round) a.marks.items };
}

impl Ahead {
    /// Nothing is set, of so many signals.
    pub fn new(alloc: Global, signals: usize) -> Result<Ahead, AllocError>
        ensures { IfOk result (λ a. a ≡ record { table = false; signals = replicate signals false }) }
    {
        let marks = vec![in alloc; 0u32; signals]?;
        Ok(Ahead {
            table: false,
            marks,
            round: 1,
        })
    }

    /// Whether the table is set.
    pub fn has_table(&self) -> bool
        ensures { result ≡ self.now.table }
    {
        self.table
    }

    /// Whether the character of a signal is set; of a signal that isn't counted it never is.
    pub fn has(&self, signal: u16) -> bool
        ensures { result ≡ slice_index_or self.now.signals signal false }
    {
        match self.marks.get(signal as usize) {
            Some(mark) => *mark == self.round,
            None => false,
        }
    }

    /// The table is set.
    pub fn set_table(&mut self)
        ensures { self.new ≡ record self.old { table = true } }
    {
        self.table = true;
    }

    /// The character of a signal is set.
    pub fn set(&mut self, signal: u16)
        ensures { self.new ≡ record self.old { signals = slice_set self.old.signals signal true } }
    {
        if (signal as usize) < self.marks.len() {
            self.marks[signal as usize] = self.round;
        }
    }

    /// Nothing is set.
    pub fn forget(&mut self)
        ensures { self.new ≡ none_ahead self.old }
    {
        self.table = false;
        if self.round < u32::MAX {
            self.round += 1;
        } else {
            self.marks.fill(0);
            self.round = 1;
        }
    }
}
