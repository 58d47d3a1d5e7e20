//! How one record of a part is written.

ghost use Rattle.std.specs.Prelude.{◌≡◌, ◌<◌, ◌++◌, ℕ, List, Some, length, map};
ghost use Rattle.csv.specs.Records.{field_at, fields_of};
ghost use Rattle.csv.specs.Writing.{default_writer, row_text};
ghost use Rattle.plan_rows.specs.Rows.{one};
ghost use Rattle.plan_rows.specs.declared.row.Row.{Row};
ghost use Rattle.plan_parts.specs.Cut.{sites_with_dies};
ghost use Rattle.plan_parts.specs.PartText.{record_in, records_text, with_site};
ghost use Rattle.plan_parts.specs.Inside.{IsWriting, Makes};

use crate::sites::Sites;
use csv::{ByteRecord, Writer};
use itoa::Buffer;
use plan_rows::{PlanFault, Row};

/// A field of a record, which has it.
fn field_of(fields: &ByteRecord, place: usize) -> &[u8]
    requires { place < length (fields_of fields.now) }
    ensures { Some result.now ≡ field_at (fields_of fields.now) place }
{
    match fields.get(place) {
        Some(field) => field,
        None => unreachable!(),
    }
}

/// Writes a record as it is.
fn put_same(out: &mut Writer<Vec<u8>>, fields: &ByteRecord) -> Result<(), PlanFault>
    ensures { Makes (λ _. (before : List ℕ) → IsWriting out.old (λ v. Some v.items) before
        → IsWriting out.new (λ v. Some v.items) (before ++ row_text default_writer (fields_of fields.now))) result }
{
    match out.write_byte_record(fields) {
        Ok(()) => Ok(()),
        Err(_) => Err(PlanFault::NoMemory),
    }
}

/// Writes a record of these fields.
fn put_fields(out: &mut Writer<Vec<u8>>, fields: &[&[u8]]) -> Result<(), PlanFault>
    ensures { Makes (λ _. (before : List ℕ) → IsWriting out.old (λ v. Some v.items) before
        → IsWriting out.new (λ v. Some v.items)
        (before ++ row_text default_writer (map (λ f. f.now) fields.now))) result }
{
    match out.write_fields(fields) {
        Ok(()) => Ok(()),
        Err(_) => Err(PlanFault::NoMemory),
    }
}

/// Writes a record with a number in the place of its site.
fn put_moved(out: &mut Writer<Vec<u8>>, fields: &ByteRecord, number: usize) -> Result<(), PlanFault>
    requires { length (fields_of fields.now) ≡ 6 }
    ensures { Makes (λ _. (before : List ℕ) → IsWriting out.old (λ v. Some v.items) before
        → IsWriting out.new (λ v. Some v.items)
        (before ++ row_text default_writer (with_site (fields_of fields.now) number))) result }
{
    let mut buffer = Buffer::new();
    let site = buffer.format(number).as_bytes();
    let kind = field_of(fields, 0);
    let third = field_of(fields, 2);
    let fourth = field_of(fields, 3);
    let fifth = field_of(fields, 4);
    let sixth = field_of(fields, 5);
    put_fields(out, &[kind, site, third, fourth, fifth, sixth])
}

/// Writes what a part has of a record.
pub(crate) fn put_record(
    out: &mut Writer<Vec<u8>>,
    sites: &Sites,
    parts: u16,
    part: u16,
    row: &Row,
    fields: &ByteRecord,
) -> Result<(), PlanFault>
    requires some { 0 < parts }
    requires six { length (fields_of fields.now) ≡ 6 }
    ensures { Makes (λ _. (rows : List Row) (before : List ℕ) → sites.now ≡ sites_with_dies rows
        → IsWriting out.old (λ v. Some v.items) before
        → IsWriting out.new (λ v. Some v.items)
        (before ++ records_text (one (record_in parts part rows row.now (fields_of fields.now))))) result }
{
    match row.site() {
        None => put_same(out, fields),
        Some(site) => match sites.number_in(parts, part, site) {
            Some(number) => put_moved(out, fields, number),
            None => Ok(()),
        },
    }
}

/// The text that was written.
pub(crate) fn finished(out: Writer<Vec<u8>>) -> Result<Vec<u8>, PlanFault>
    ensures { Makes (λ text. (before : List ℕ) → IsWriting out (λ v. Some v.items) before
        → text.items ≡ before) result }
{
    match out.into_inner() {
        Ok(text) => Ok(text),
        Err(_) => Err(PlanFault::NoMemory),
    }
}
