//! The names of a scan chain's cells (IEEE 1450-1999, clause 20).

ghost use Rattle.std.specs.Prelude.{◌≡◌, IfOk, length};
ghost use Rattle.std.specs.Option.{option_copied};
ghost use Rattle.tester_types.specs.Cells.{cell_behind, marked_cell};

use std::alloc::{AllocError, Global};
use std::marker::Model;
use std::sync::Arc;
use tester_types::{Text, TextList};

/// The names of cells, from the one next to the scan input on. They lie in memory once for all that share them, in any
/// threads. A contract sees them as the list of the names.
#[derive(Drop)]
pub struct CellNames {
    names: Arc<TextList>,
}

impl Model for CellNames {
    ghost use Rattle.std.specs.Prelude.{List, ℕ};
    ghost use Rattle.std.specs.Arc.{arc_value};

    ghost Value = { List (List ℕ) };

    ghost view = { λ c. arc_value c.names };
}

impl CellNames {
    /// These names, to be shared.
    pub fn new(alloc: Global, names: Vec<Text>) -> Result<CellNames, AllocError>
        ensures { IfOk result (λ cells. cells ≡ names.items) }
    {
        let names = Arc::new(alloc, TextList::from_vec(names))?;
        Ok(CellNames { names })
    }

    /// The names in order.
    pub fn as_slice(&self) -> &[Text]
        ensures { result.now ≡ self.now }
    {
        self.names.as_slice()
    }

    /// How many names there are.
    pub fn len(&self) -> usize
        ensures { result ≡ length self.now }
    {
        self.names.len()
    }

    /// The name of the cell that a mark means in a chain of so many cells, where the chain names it. A mark is 1 more than the index
    /// of a scan character, from 0: the first to leave a chain is that of its last cell.
    pub fn marked(&self, length: usize, mark: u32) -> Option<&Text>
        ensures { option_copied result ≡ marked_cell length self.now mark }
    {
        if mark == 0 {
            None
        } else {
            cell_behind(self.as_slice(), length, mark - 1)
        }
    }

    /// The same names once more, without a copy of them.
    pub fn share(&self) -> Result<CellNames, AllocError>
        ensures { IfOk result (λ cells. cells ≡ self.now) }
    {
        let names = Arc::try_clone(&self.names)?;
        Ok(CellNames { names })
    }
}

/// The name of the cell whose character leaves a chain of so many cells with this index, from 0.
fn cell_behind(names: &[Text], length: usize, index: u32) -> Option<&Text>
    ensures { option_copied result ≡ cell_behind length names.now index }
{
    let index = index as usize;
    if index < length {
        names.get(length - 1 - index)
    } else {
        None
    }
}
