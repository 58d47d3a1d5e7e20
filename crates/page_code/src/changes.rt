//! What a row changes of the row before it.

ghost use Rattle.std.specs.Prelude.{◌≡◌, ◌<◌, ◌≤◌, ◌==◌, if◌then◌else◌, length};
ghost use Rattle.page_code.specs.Changes.{last_row as the_last_row, changes, is_shorter as are_shorter, is_difference as is_changed};

use packed_code::RowList;

/// The last row.
pub fn last_row(rows: &RowList) -> &[u8]
    requires { 0 < length rows.now }
    ensures { result.now ≡ the_last_row rows.now }
{
    rows.row(rows.len() - 1)
}

/// How many changes a new character is in place of an old one.
fn is_changed_to(old: u8, new: u8) -> usize
    ensures exact { result ≡ (if new == old then 0 else 1) }
    ensures small { result ≤ 1 }
{
    usize::from(new != old)
}

/// In how many signals a row differs from the last one.
pub(crate) fn count_changes(last: &[u8], row: &[u8]) -> usize
    ensures { result ≡ length (changes 0 last.now row.now) }
{
    let mut count = 0;
    for signal in 0..last.len().min(row.len()) {
        count += is_changed_to(last[signal], row[signal]);
    }
    count
}

/// Whether so many changes, three bytes each behind a count of two, take fewer bytes than a character for each signal.
pub fn is_shorter(changes: usize, signals: usize) -> bool
    ensures { result ≡ are_shorter changes signals }
{
    changes < signals / 3
}

/// Whether a row is spelled as a difference behind these.
pub fn is_difference(rows: &RowList, row: &[u8]) -> bool
    ensures { result ≡ is_changed rows.now row.now }
{
    rows.len() > 0 && is_shorter(count_changes(last_row(rows), row), row.len())
}
