//! The cells of a ScanCells statement (IEEE 1450-1999, clause 20).

ghost use Rattle.std.specs.Prelude.{◌≡◌, ◌∷◌, ◌++◌, [], Ok, IfOk};
ghost use Rattle.answers.specs.Reading.{stepping};
ghost use Rattle.stil_form.specs.Reading.{Answers};
ghost use Rattle.stil_form.specs.Setting.{at_statement};
ghost use Rattle.stil_form.specs.Lexeme.{lexeme_of, lexemes};
ghost use Rattle.stil_form.specs.Fronts.{index_by};
ghost use Rattle.stil_ast.specs.Data.BlockForms as forms;
ghost use Rattle.scan_blocks.specs.Cells.{cells_said};
ghost use Rattle.scan_blocks.specs.Working as cells;

use block_forms::with_one;
use std::alloc::{AllocError, Global};
use stil_ast::{CellDeclList, IndexRange, NameRef};
use stil_form::{FormFault, FormKind, Part, SignKind, Source, Span, name_of, part_of};
use tester_types::{Items, Text};
use text_bytes::{MOST_CELLS, number_by};

/// What may stand next among cells.
#[derive(Drop)]
pub(crate) enum Awaited {
    /// A cell, or the end.
    Cell,
    /// Behind this name: its indices, another cell, or the end.
    Indices(Text),
    /// The first index, behind a `[`.
    First(Text),
    /// What stands behind the first index: a `]`, or the first of two dots.
    Behind(Text, u64),
    /// The second dot.
    Dot(Text, u64),
    /// The last index.
    Last(Text, u64),
    /// The `]` behind the last index.
    End(Text, u64, u64),
}

/// The cells so far, and how many more there may be.
#[derive(Drop)]
pub(crate) struct CellsLeft {
    cells: CellDeclList,
    left: u64,
}

/// What the tokens so far say: the cells, where they are within their limits, and what may stand next.
#[derive(Drop)]
pub(crate) struct CellsRead {
    cells: Option<CellsLeft>,
    awaited: Awaited,
}

impl CellsRead {
    fn new(cells: Option<CellsLeft>, awaited: Awaited) -> CellsRead
        ensures { result ≡ record { cells = cells; awaited = awaited } }
    {
        CellsRead { cells, awaited }
    }
}

/// The number that a word of digits is.
pub(crate) fn index_of(part: &Part) -> Option<u64>
    ensures { result ≡ index_by (lexeme_of part.now) }
{
    match *part {
        Part::Word(digits) => number_by(digits),
        _ => None,
    }
}

/// How many indices a range has.
fn range_size(range: IndexRange) -> u64
    ensures { result ≡ forms.range_size range }
{
    let first = u64::from(range.first);
    let last = u64::from(range.last);
    if first <= last {
        last - first + 1
    } else {
        first - last + 1
    }
}

/// How many cells a name stands for.
fn cell_size(range: Option<IndexRange>) -> u64
    ensures { result ≡ forms.cell_size range }
{
    match range {
        None => 1,
        Some(range) => range_size(range),
    }
}

/// A name, or one name for each index, where so many are left.
fn with_cell(
    before: Option<CellsLeft>,
    called: Text,
    range: Option<IndexRange>,
) -> Result<Option<CellsLeft>, AllocError>
    ensures { IfOk result (λ more. more ≡ cells.with_cell before called range) }
{
    let Some(CellsLeft { cells, left }) = before else {
        return Ok(None);
    };
    let size = cell_size(range);
    if size > left {
        return Ok(None);
    }
    let cells = with_one(
        cells,
        NameRef {
            name: called,
            range,
        },
    )?;
    Ok(Some(CellsLeft {
        cells,
        left: left - size,
    }))
}

/// A cell begins.
fn cell_begins(
    alloc: Global,
    first: u32,
    before: Option<CellsLeft>,
    part: &Part,
) -> Result<CellsRead, FormFault>
    ensures { Answers result (at_statement first (cells.cell_begins before (lexeme_of part.now))) }
{
    if let Part::Sign(SignKind::Bang) = part {
        return Ok(CellsRead::new(before, Awaited::Cell));
    }
    match name_of(part) {
        Some(called) => {
            let called = Items::from_slice(alloc, called)?;
            Ok(CellsRead::new(before, Awaited::Indices(called)))
        }
        None => Err(FormFault::Refused(FormKind::Shape, first)),
    }
}

/// The indices of a name end, each of which is at most 2^32 - 1.
fn indexed(
    before: Option<CellsLeft>,
    called: Text,
    first: u64,
    last: u64,
) -> Result<CellsRead, AllocError>
    ensures { IfOk result (λ read. cells.indexed before called first last ≡ Ok read) }
{
    match (Span { first, last }).indices() {
        None => Ok(CellsRead::new(None, Awaited::Cell)),
        Some((first, last)) => {
            let range = Some(IndexRange { first, last });
            Ok(CellsRead::new(with_cell(before, called, range)?, Awaited::Cell))
        }
    }
}

/// What a token says, behind those before it.
fn cells_step(
    alloc: Global,
    first: u32,
    before: CellsRead,
    part: &Part,
) -> Result<CellsRead, FormFault>
    ensures { Answers result (cells.cells_step first before (lexeme_of part.now)) }
{
    let CellsRead { cells, awaited } = before;
    match awaited {
        Awaited::Cell => cell_begins(alloc, first, cells, part),
        Awaited::Indices(called) => match part {
            Part::Sign(SignKind::Open) => Ok(CellsRead::new(cells, Awaited::First(called))),
            _ => cell_begins(alloc, first, with_cell(cells, called, None)?, part),
        },
        Awaited::First(called) => match index_of(part) {
            Some(index) => Ok(CellsRead::new(cells, Awaited::Behind(called, index))),
            None => Err(FormFault::Refused(FormKind::Shape, first)),
        },
        Awaited::Behind(called, index) => match part {
            Part::Sign(SignKind::Close) => Ok(indexed(cells, called, index, index)?),
            Part::Sign(SignKind::Dot) => Ok(CellsRead::new(cells, Awaited::Dot(called, index))),
            _ => Err(FormFault::Refused(FormKind::Shape, first)),
        },
        Awaited::Dot(called, index) => match part {
            Part::Sign(SignKind::Dot) => Ok(CellsRead::new(cells, Awaited::Last(called, index))),
            _ => Err(FormFault::Refused(FormKind::Shape, first)),
        },
        Awaited::Last(called, index) => match index_of(part) {
            Some(last) => Ok(CellsRead::new(cells, Awaited::End(called, index, last))),
            None => Err(FormFault::Refused(FormKind::Shape, first)),
        },
        Awaited::End(called, index, last) => match part {
            Part::Sign(SignKind::Close) => Ok(indexed(cells, called, index, last)?),
            _ => Err(FormFault::Refused(FormKind::Shape, first)),
        },
    }
}

/// What all tokens say.
fn read_parts(alloc: Global, first: u32, head: Source) -> Result<CellsRead, FormFault>
    ensures { Answers result (stepping (cells.cells_step first) cells.cells_start (lexemes head.entry)) }
{
    let none = CellsLeft {
        cells: Items::from_vec(Vec::new(alloc)),
        left: MOST_CELLS as u64,
    };
    let mut read = CellsRead::new(Some(none), Awaited::Cell);
    for token in head.tokens {
        read = cells_step(alloc, first, read, &part_of(head.bytes, token))?;
    }
    Ok(read)
}

/// The cells by one pass over what stands behind the keyword of the statement with this first token.
fn read_worked(alloc: Global, first: u32, rest: Source) -> Result<CellDeclList, FormFault>
    ensures { Answers result (cells.cells_worked first (lexemes rest.entry)) }
{
    if rest.tokens.is_empty() {
        return Err(FormFault::Refused(FormKind::Shape, first));
    }
    let CellsRead { cells, awaited } = read_parts(alloc, first, rest)?;
    let cells = match awaited {
        Awaited::Cell => cells,
        Awaited::Indices(called) => with_cell(cells, called, None)?,
        _ => return Err(FormFault::Refused(FormKind::Shape, first)),
    };
    match cells {
        Some(CellsLeft { cells, .. }) => Ok(cells),
        None => Err(FormFault::Refused(FormKind::OutOfRange, first)),
    }
}

/// The cells that stand behind the keyword of the statement with this first token.
pub(crate) fn read_cells(alloc: Global, first: u32, rest: Source) -> Result<CellDeclList, FormFault>
    ensures { Answers result (cells_said first (lexemes rest.entry)) }
{
    read_worked(alloc, first, rest)
}
