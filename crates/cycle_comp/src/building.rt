//! The code of executives as it grows.

use packed_code::{CodeExec, RowList};
use tester_types::Table;

/// What was made of the executives so far: their tables, their rows, their instructions, and their measure.
#[derive(Drop)]
pub(crate) struct Building {
    pub(crate) tables: Vec<Table>,
    pub(crate) rows: RowList,
    pub(crate) execs: Vec<CodeExec>,
    pub(crate) measure: u64,
}
