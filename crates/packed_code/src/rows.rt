//! The rows of a code: lists of characters, one for each signal, no two of them equal.

ghost use Rattle.std.specs.Prelude.{◌≡◌, ◌<◌, ◌≤◌, ◌++◌, ◌∷◌, [], Some, length, slice_get, slice_index_or, map, not, IfOk, OnErr, if◌then◌else◌};
ghost use Rattle.packed_code.specs.Rows.{is_row_of};

use indexmap::IndexSet;
use std::alloc::{AllocError, Global};
use std::marker::Model;

/// Rows without a repeated one, in the order in which they came.
#[derive(Drop)]
pub struct RowList {
    rows: IndexSet<Vec<u8>>,
}

impl Model for RowList {
    ghost use Rattle.std.specs.Prelude.{ℕ, List, map};
    ghost use Rattle.packed_code.specs.Rows.{row_items};

    ghost Value = { List (List ℕ) };

    ghost view = { λ s. map row_items s.rows.keys };
}

impl RowList {
    /// No rows.
    pub fn new(alloc: Global) -> RowList
        ensures { result ≡ [] }
    {
        RowList {
            rows: IndexSet::new(alloc),
        }
    }

    /// How many rows there are.
    pub fn len(&self) -> usize
        ensures { result ≡ length self.now }
    {
        self.rows.len()
    }

    /// The row of a number.
    pub fn row(&self, number: usize) -> &[u8]
        requires { number < length self.now }
        ensures found { slice_get self.now number ≡ Some result.now }
        ensures read { result.now ≡ slice_index_or self.now number result.now }
    {
        &self.rows[number]
    }

    /// Puts a row at the end, unless it is there. Answers its number.
    pub fn add(&mut self, row: Vec<u8>) -> Result<usize, AllocError>
        ensures number { IfOk result (λ number. slice_get self.new number ≡ Some row.items) }
        ensures rows { IfOk result
            (λ number. self.new ≡ (if is_row_of self.old row.items then self.old else self.old ++ row.items ∷ [])) }
        ensures err { OnErr result (self.new ≡ self.old) }
    {
        let (number, _) = self.rows.insert_full(row)?;
        Ok(number)
    }

    /// Puts a row at the end, unless it is there. Says whether it was put.
    pub fn insert(&mut self, row: Vec<u8>) -> Result<bool, AllocError>
        ensures put { IfOk result (λ fresh. fresh ≡ not (is_row_of self.old row.items)) }
        ensures rows { IfOk result (λ fresh. self.new ≡ (if fresh then self.old ++ row.items ∷ [] else self.old)) }
        ensures err { OnErr result (self.new ≡ self.old) }
    {
        let (_, fresh) = self.rows.insert_full(row)?;
        Ok(fresh)
    }
}
