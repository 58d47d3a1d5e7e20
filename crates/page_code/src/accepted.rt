//! Pairs of a table and a row that were found to go together, so that each is judged once.

ghost use Rattle.std.specs.Prelude.{◌≡◌, ◌<◌, List, ℕ, length, IfOk};
ghost use Rattle.tester_types.specs.declared.wave.Table.{Table as ATable};
ghost use Rattle.packed_code.specs.Conditions.{has_waves, waves_of, characters_of};
ghost use Rattle.page_code.specs.Accepted.{AreAccepted};

use crate::wave_index::WaveIndex;
use indexmap::IndexSet;
use packed_code::RowList;
use std::alloc::{AllocError, Global};
use tester_types::Table;

/// Numbers of tables and rows, where the table has a wave for each character of the row, and the waves of the table
/// that was asked last.
#[derive(Drop)]
pub(crate) struct Accepted {
    pairs: IndexSet<(u16, u32)>,
    index: WaveIndex,
}

impl Accepted {
    /// No pairs.
    pub(crate) fn new(alloc: Global) -> Accepted
        ensures { (tables : List ATable) → (rows : List (List ℕ)) → AreAccepted tables rows result }
    {
        Accepted {
            pairs: IndexSet::new(alloc),
            index: WaveIndex::new(alloc),
        }
    }

    /// Whether a table has a wave for each character of a row. A pair that was accepted is not judged again.
    pub(crate) fn has_waves_for(
        &mut self,
        tables: &[Table],
        rows: &RowList,
        table: u16,
        row: u32,
    ) -> Result<bool, AllocError>
        requires accepted { AreAccepted tables.now rows.now self.old }
        requires row { row < length rows.now }
        ensures fits { IfOk result
            (λ fits. fits ≡ has_waves (waves_of tables.now table) 0 (characters_of rows.now row)) }
        ensures accepted { AreAccepted tables.now rows.now self.new }
    {
        let pair = (table, row);
        if self.pairs.contains(&pair) {
            return Ok(true);
        }
        let characters = rows.row(row as usize);
        self.index.turn_to(tables, table, characters.len())?;
        if !self.index.has_each(characters) {
            return Ok(false);
        }
        self.pairs.insert(pair)?;
        Ok(true)
    }
}
