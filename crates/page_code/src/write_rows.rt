//! Saving rows: whole, or as what each changes of the row before it.

ghost use Rattle.std.specs.Prelude.{◌≡◌, ◌<◌, ◌^◌, ◌-◌, ◌++◌, ◌∷◌, [], true, false, MatchOption, length, min, take, slice_index_or};
ghost use Rattle.std.specs.List.{flat_map};
ghost use Rattle.std.specs.Int.{w16};
ghost use Rattle.tester_types.specs.Outside.{Prints};
ghost use Rattle.page_code.specs.Changes.{last_row, changes, is_difference};
ghost use Rattle.packed_code.specs.Packed.{number};
ghost use Rattle.page_code.specs.Spelling as spell;
ghost use Rattle.page_code.specs.Spelling.{behind};

use crate::changes::{count_changes, is_shorter};
use crate::version::Version;
use crate::write_fields::{Byte, Bytes, Count16, Spelled, Then};
use packed_code::RowList;
use tester_types::{Sink, SinkFault, put_all};

/// What a row changes of the last one.
#[derive(Drop)]
struct Changes<'a> {
    last: &'a [u8],
    row: &'a [u8],
}

impl Spelled for Changes<'_> {
    ghost spelling = { λ s. flat_map spell.change (changes 0 s.last.now s.row.now) };

    fn put<K: Sink>(&self, sink: &mut K) -> Result<(), SinkFault> {
        put_changes(sink, self.last, self.row)
    }

    fn size(&self) -> u64 {
        (count_changes(self.last, self.row) as u64).saturating_mul(3)
    }
}

/// Puts the change in a signal, its number in 16 bits and its new character, where that differs from the old one.
#[tactic(auto, unfolding(packed_code::specs::Packed::number))]
fn put_change<K: Sink>(sink: &mut K, signal: usize, old: u8, new: u8) -> Result<(), SinkFault>
    ensures { Prints (K.told sink.old) (K.faults sink.old)
        (flat_map spell.change (changes signal (old ∷ []) (new ∷ []))) result
        (K.told sink.new) (K.faults sink.new) }
{
    if new == old {
        return Ok(());
    }
    let [low, high, _, _, _, _, _, _] = signal.to_le_bytes();
    put_all(sink, &[low, high, new])
}

/// Puts what a row changes of the last one.
fn put_changes<K: Sink>(sink: &mut K, last: &[u8], row: &[u8]) -> Result<(), SinkFault>
    ensures { Prints (K.told sink.old) (K.faults sink.old)
        (flat_map spell.change (changes 0 last.now row.now)) result (K.told sink.new) (K.faults sink.new) }
{
    for signal in 0..last.len().min(row.len()) {
        put_change(sink, signal, last[signal], row[signal])?;
    }
    Ok(())
}

/// The form of a difference, the count of changes, and these.
fn difference_parts<'a>(
    last: &'a [u8],
    row: &'a [u8],
    count: usize,
) -> Then<Byte, Then<Count16, Changes<'a>>>
    requires { count ≡ length (changes 0 last.now row.now) }
    ensures { (result.first.byte ∷ []) ++ (number w16 result.second.first.count
        ++ flat_map spell.change (changes 0 result.second.second.last.now result.second.second.row.now))
        ≡ 1 ∷ spell.difference (changes 0 last.now row.now) }
{
    Then {
        first: Byte { byte: 1 },
        second: Then {
            first: Count16 { count },
            second: Changes { last, row },
        },
    }
}

/// The form of a whole row, and its characters.
fn whole_parts(row: &[u8]) -> Then<Byte, Bytes<'_>>
    ensures { (result.first.byte ∷ []) ++ result.second.bytes.now ≡ 0 ∷ row.now }
{
    Then {
        first: Byte { byte: 0 },
        second: Bytes { bytes: row },
    }
}

/// The row before that of a number, and in how many signals they differ, where that is spelled as a difference.
fn changed_row(rows: &RowList, number: usize) -> Option<(&[u8], usize)>
    requires { number < length rows.now }
    ensures { MatchOption result
        (is_difference (take number rows.now) (slice_index_or rows.now number []) ≡ false)
        (λ x. (x.0.now ≡ last_row (take number rows.now))
        × (x.1 ≡ length (changes 0 x.0.now (slice_index_or rows.now number [])))
        × (is_difference (take number rows.now) (slice_index_or rows.now number []) ≡ true)) }
{
    if number == 0 {
        return None;
    }
    let last = rows.row(number - 1);
    let row = rows.row(number);
    let count = count_changes(last, row);
    if !is_shorter(count, row.len()) {
        return None;
    }
    Some((last, count))
}

/// Puts the row of a number as it is spelled behind those before it.
fn put_row<K: Sink>(
    sink: &mut K,
    version: Version,
    rows: &RowList,
    number: usize,
) -> Result<(), SinkFault>
    requires { number < length rows.now }
    ensures { Prints (K.told sink.old) (K.faults sink.old)
        (spell.row version (take number rows.now) (slice_index_or rows.now number [])) result
        (K.told sink.new) (K.faults sink.new) }
{
    let row = rows.row(number);
    match version {
        Version::One => put_all(sink, row),
        Version::Two => match changed_row(rows, number) {
            Some((last, count)) => difference_parts(last, row, count).put(sink),
            None => whole_parts(row).put(sink),
        },
    }
}

/// How many bytes the row of a number has as it is spelled behind those before it, as far as 64 bits count.
fn size_of_row(version: Version, rows: &RowList, number: usize) -> u64
    requires { number < length rows.now }
    ensures { result
        ≡ min (length (spell.row version (take number rows.now) (slice_index_or rows.now number []))) (2 ^ 64 - 1) }
{
    let row = rows.row(number);
    match version {
        Version::One => row.len() as u64,
        Version::Two => match changed_row(rows, number) {
            Some((last, count)) => difference_parts(last, row, count).size(),
            None => whole_parts(row).size(),
        },
    }
}

fn put_rows<K: Sink>(sink: &mut K, version: Version, rows: &RowList) -> Result<(), SinkFault>
    ensures { Prints (K.told sink.old) (K.faults sink.old) (behind (spell.row version) [] rows.now) result
        (K.told sink.new) (K.faults sink.new) }
{
    for number in 0..rows.len() {
        put_row(sink, version, rows, number)?;
    }
    Ok(())
}

fn size_of_rows(version: Version, rows: &RowList) -> u64
    ensures { result ≡ min (length (behind (spell.row version) [] rows.now)) (2 ^ 64 - 1) }
{
    let mut size: u64 = 0;
    for number in 0..rows.len() {
        size = size.saturating_add(size_of_row(version, rows, number));
    }
    size
}

/// Rows of a version, one behind another.
#[derive(Drop)]
pub(crate) struct Rows<'a> {
    pub(crate) version: Version,
    pub(crate) rows: &'a RowList,
}

impl Spelled for Rows<'_> {
    ghost spelling = { λ s. behind (spell.row s.version) [] s.rows.now };

    fn put<K: Sink>(&self, sink: &mut K) -> Result<(), SinkFault> {
        put_rows(sink, self.version, self.rows)
    }

    fn size(&self) -> u64 {
        size_of_rows(self.version, self.rows)
    }
}
