//! Rows that no earlier die decides, each by the ranges of its numbers.

ghost use Rattle.std.specs.Prelude.{◌≡◌, ◌≤◌, ℕ, pos, neg_ℤ, true, [], Some, None, if◌then◌else◌};
ghost use Rattle.plan_rows.specs.Limits.{most_skew};
ghost use Rattle.plan_rows.specs.Judging.{row_of, tries_fit, ending_fits};
ghost use Rattle.plan_rows.specs.Forms.{a_lot, a_bind, a_bin};
ghost use Rattle.plan_rows.specs.Views.{ending_seen, net_seen};
ghost use Rattle.plan_rows.specs.Inside.{IsAnswer};

use crate::fault::PlanFault;
use crate::row::{BinRow, BindRow, Ending, LotRow, Row};
use crate::written::Ended;
use std::alloc::Global;
use tester_types::Items;
use text_bytes::{MOST_EXECUTIVES, MOST_PLAN_SITES};

/// The greatest number of a site.
pub(crate) const LAST_SITE: u64 = MOST_PLAN_SITES as u64 - 1;

/// The most tries of a die.
pub(crate) const MOST_TRIES: u64 = 8;

/// The greatest number of a batch.
pub(crate) const LAST_BATCH: u64 = 281_474_976_710_656;

/// The most femtoseconds by which a skew moves events.
pub(crate) const MOST_SKEW: u64 = 1_000_000_000_000;

/// The most cycles of a batch.
const MOST_BATCH: u64 = 1_048_576;

/// The most kept fails of a try.
const MOST_KEEP: u64 = 1024;

/// The greatest number of an executive.
const LAST_EXECUTIVE: u64 = MOST_EXECUTIVES as u64 - 1;

/// The greatest number of a bin.
const LAST_BIN: u64 = 99;

/// The lot's own row, or that a number is out of its range.
pub(crate) fn lot_row(place: u32, batch: u64, tries: u64, keep: u64) -> Result<Row, PlanFault>
    ensures { result ≡ row_of place [] (a_lot batch tries keep) }
{
    if batch < 1 || batch > MOST_BATCH || tries < 1 || tries > MOST_TRIES || keep > MOST_KEEP {
        return Err(PlanFault::OutOfRange(place));
    }
    Ok(Row::Lot(LotRow {
        batch: batch as u32,
        tries: tries as u8,
        keep: keep as u16,
    }))
}

/// The row of a signal's net.
pub(crate) fn bind_row(alloc: Global, signal: &[u8], net: Option<&[u8]>) -> Result<Row, PlanFault>
    ensures { (place : ℕ) → IsAnswer result (row_of place [] (a_bind signal.now (net_seen net.entry))) }
{
    let signal = Items::from_slice(alloc, signal)?;
    let net = match net {
        Some(net) => Some(Items::from_slice(alloc, net)?),
        None => None,
    };
    Ok(Row::Bind(BindRow { signal, net }))
}

/// An ending whose number is within its range.
fn ending_of(ended: Ended) -> Option<Ending>
    ensures { result ≡ (if ending_fits (ending_seen ended) then Some (ending_seen ended) else None) }
{
    match ended {
        Ended::Pass => Some(Ending::Pass),
        Ended::Fail(executive) if executive <= LAST_EXECUTIVE => {
            Some(Ending::Fail(executive as u8))
        }
        Ended::Fail(_) => None,
        Ended::Stopped => Some(Ending::Stopped),
        Ended::Contact => Some(Ending::Contact),
    }
}

/// The row of an ending's bin, or that a number is out of its range.
pub(crate) fn bin_row(place: u32, ended: Ended, number: u64) -> Result<Row, PlanFault>
    ensures { result ≡ row_of place [] (a_bin (ending_seen ended) number) }
{
    match ending_of(ended) {
        Some(ending) if 1 <= number && number <= LAST_BIN => Ok(Row::Bin(BinRow {
            ending,
            bin: number as u8,
        })),
        _ => Err(PlanFault::OutOfRange(place)),
    }
}

/// A skew of this size, below 0 or not.
pub(crate) fn signed(back: bool, size: u64) -> i64
    requires { size ≤ most_skew }
    ensures { result ≡ (if back then neg_ℤ (pos size) else pos size) }
{
    let size = size as i64;
    if back { -size } else { size }
}

/// Whether a fault's tries are within their range.
pub(crate) fn are_tries(tries: Option<u64>) -> bool
    ensures { result ≡ tries_fit tries }
{
    match tries {
        Some(tries) => 1 <= tries && tries <= MOST_TRIES,
        None => true,
    }
}

/// Tries that are within their range.
pub(crate) fn small_tries(tries: Option<u64>) -> Option<u8>
    requires { tries_fit tries ≡ true }
    ensures { result ≡ tries }
{
    match tries {
        Some(tries) => Some(tries as u8),
        None => None,
    }
}
