//! Laws of data and cells: what is read is what the tokens spell.

ghost use Rattle.spelled_items.specs.Laws.{DataAreSpelled, DataAreRefused, CellsAreSpelled, CellsAreRefused};

/// The items that are read of data are those that the tokens spell.
pub fn data_are_spelled()
    ensures { DataAreSpelled }
{}

/// Data are refused where items are spelled up to a fault, and for this fault.
pub fn data_are_refused()
    ensures { DataAreRefused }
{}

/// The cells that are read of a ScanCells statement are those that its tokens spell.
pub fn cells_are_spelled()
    ensures { CellsAreSpelled }
{}

/// The cells of a ScanCells statement are refused where its tokens spell none, or too many, or an index is too large.
pub fn cells_are_refused()
    ensures { CellsAreRefused }
{}
