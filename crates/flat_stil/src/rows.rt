//! The rows of a flat text.

ghost use Rattle.std.specs.Prelude.{◌≡◌, [], ◌∷◌, ◌++◌, codes, map, length, slice_index_or};
ghost use Rattle.std.specs.List.{range_with_len};
ghost use Rattle.packed_code.specs.Conditions.{characters_of};
ghost use Rattle.flat_parts.specs.Order.{row_order};
ghost use Rattle.flat_parts.specs.FlatText.{character_item, character_items, row_front, row_text, row_line, row_lines};
ghost use Rattle.flat_stil.specs.Working.{wrote, prints};

use crate::names::name_at;
use crate::sheet::{Part, Sheet};
use packed_code::Code;

/// The character of a signal in a row, 0 where it has none.
fn character_at(row: &[u8], signal: u16) -> u8
    ensures { result ≡ slice_index_or row.now signal 0 }
{
    if usize::from(signal) < row.len() {
        row[usize::from(signal)]
    } else {
        0
    }
}

/// Writes what a row gives to a signal.
fn put_character(sheet: &mut Sheet, name: &[u8], character: u8)
    ensures { sheet.new ≡ wrote sheet.old (character_item name.now character) }
{
    if character != 0 {
        sheet.put_parts(&[
            Part::Name(name),
            Part::Text(b"="),
            Part::Character(character),
            Part::Text(b"; "),
        ]);
    }
}

/// Writes what a row gives to all signals.
fn put_characters(sheet: &mut Sheet, code: &Code, row: &[u8])
    ensures { sheet.new ≡ wrote sheet.old (character_items code.now row.now) }
{
    for signal in 0..code.signals() {
        put_character(sheet, name_at(code, signal), character_at(row, signal));
    }
}

/// The characters of a row, none where there is no such row.
fn row_at(code: &Code, row: u32) -> &[u8]
    ensures { result.now ≡ characters_of code.now.rows row }
{
    if row < code.rows() {
        code.row(row)
    } else {
        &[]
    }
}

/// Writes the name of a row's procedure, up to what the row gives.
fn put_front(sheet: &mut Sheet, number: u64)
    ensures { sheet.new ≡ wrote sheet.old (row_front number ++ codes "{ ") }
{
    sheet.put_parts(&[
        Part::Text(b"\"r"),
        Part::Number(number),
        Part::Text(b"\" { V { "),
    ]);
}

/// Writes the line of a row.
fn put_row(sheet: &mut Sheet, code: &Code, number: u64, row: &[u8])
    ensures { sheet.new ≡ prints sheet.old (row_text code.now number row.now ∷ []) }
{
    put_front(sheet, number);
    put_characters(sheet, code, row);
    sheet.put_line(&[Part::Text(b"} }")]);
}

/// Writes the lines of the rows in their new order.
fn put_each(sheet: &mut Sheet, code: &Code, order: &[u32])
    requires { order.now ≡ row_order code.now }
    ensures { sheet.new ≡ prints sheet.old (map (row_line code.now) (range_with_len 0 (length (row_order code.now)))) }
{
    for number in 0..order.len() {
        put_row(sheet, code, number as u64, row_at(code, order[number]));
    }
}

/// Writes the rows that Runs name.
pub(crate) fn put_rows(sheet: &mut Sheet, code: &Code, order: &[u32])
    requires { order.now ≡ row_order code.now }
    ensures { sheet.new ≡ prints sheet.old (row_lines code.now) }
{
    sheet.put_line(&[Part::Text(b"Procedures {")]);
    put_each(sheet, code, order);
    sheet.close();
}
