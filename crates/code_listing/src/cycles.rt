//! The line of a dated cycle.

ghost use Rattle.std.specs.Prelude.{◌≡◌, length, map};
ghost use Rattle.tester_types.specs.Outside.{Prints};
ghost use Rattle.packed_code.specs.Walk.{IsOf};
ghost use Rattle.code_listing.specs.Listing.{listed};
ghost use Rattle.code_listing.specs.Text.{cycle_line, row_line, character_or_dash};

use packed_code::Code;
use tester_types::{Cycle, Piece, Sink, SinkFault, put_each};

/// A character of a signal, `-` for none.
fn character_or_dash(character: u8) -> u8
    ensures { result ≡ character_or_dash character }
{
    if character == 0 { b'-' } else { character }
}

/// Puts the characters of all signals into a row.
fn show(row: &mut [u8], characters: &[u8])
    requires { length row.old ≡ length characters.now }
    ensures { row.new ≡ map character_or_dash characters.now }
{
    for place in 0..characters.len() {
        row[place] = character_or_dash(characters[place]);
    }
}

/// Puts the line of a numbered cycle, with a row that has a byte for each signal.
pub(crate) fn put_cycle_line<K: Sink>(
    sink: &mut K,
    code: &Code,
    number: u64,
    cycle: &Cycle,
    row: &mut [u8],
) -> Result<(), SinkFault>
    requires of { IsOf code.now cycle.now.table cycle.now.row }
    requires row { length row.old ≡ length code.now.signals }
    ensures prints { Prints (K.told sink.old) (K.faults sink.old)
        (cycle_line (listed code.now (number, cycle.now))) result (K.told sink.new) (K.faults sink.new) }
    ensures row { length row.new ≡ length code.now.signals }
{
    let _conditions = code.signals();
    show(row, code.row(cycle.row));
    let table = code.table(cycle.table).name.as_slice();
    put_row(sink, number, cycle.start, table, row)
}

/// Puts the line of a cycle with its characters.
fn put_row<'a, K: Sink>(
    sink: &mut K,
    number: u64,
    start: u128,
    table: &'a [u8],
    row: &'a [u8],
) -> Result<(), SinkFault>
    ensures { Prints (K.told sink.old) (K.faults sink.old) (row_line number start table.now row.now) result
        (K.told sink.new) (K.faults sink.new) }
{
    let line = [
        Piece::Number(u128::from(number)),
        Piece::Text(b" "),
        Piece::Number(start),
        Piece::Text(b" "),
        Piece::Name(table),
        Piece::Text(b" "),
        Piece::Text(row),
        Piece::Text(b"\n"),
    ];
    put_each(sink, &line)
}
