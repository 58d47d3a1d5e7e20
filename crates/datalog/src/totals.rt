//! How many dies each bin has.

ghost use Rattle.std.specs.Prelude.{◌≡◌, ℕ, ◌^◌, ◌<◌, ◌≤◌, All, [], length, map, slice_index};
ghost use Rattle.text_bytes.specs.Limits.{most_plan_sites};
ghost use Rattle.tester_types.specs.Outside.{Prints};
ghost use Rattle.tester_types.specs.Records.{records_of};
ghost use Rattle.datalog.specs.Counts.{AreCounts, HaveGrown};
ghost use Rattle.datalog.specs.DatalogText.{die_bin, bins_of, numbered, total_line};

use crate::records::die_bin;
use lot_plan::BoundPlan;
use tester_types::{Piece, Record, RecordList, Sink, SinkFault, put_each};

/// How many counts there are: of the bins 1 to 99, and of bin 0, which no die has.
const BINS: usize = 100;

/// Puts the totals of the bins.
pub(crate) fn put_totals<K: Sink>(sink: &mut K, counts: &[u128]) -> Result<(), SinkFault>
    ensures { Prints (K.told sink.old) (K.faults sink.old) (numbered total_line 0 counts.now) result
        (K.told sink.new) (K.faults sink.new) }
{
    for (bin, dies) in counts.iter().enumerate() {
        put_total(sink, bin, *dies)?;
    }
    Ok(())
}

/// Puts how many dies a bin has, and nothing for a bin without a die.
fn put_total<K: Sink>(sink: &mut K, bin: usize, dies: u128) -> Result<(), SinkFault>
    ensures { Prints (K.told sink.old) (K.faults sink.old) (total_line bin dies) result
        (K.told sink.new) (K.faults sink.new) }
{
    if dies == 0 {
        return Ok(());
    }
    let line = [
        Piece::Text(b"total "),
        Piece::Number(bin as u128),
        Piece::Text(b" "),
        Piece::Number(dies),
        Piece::Text(b"\n"),
    ];
    put_each(sink, &line)
}

/// How many dies fell into each bin.
pub(crate) fn counts_of(plan: &BoundPlan, sites: &[RecordList]) -> [u128; BINS]
    requires few { length sites.now ≤ most_plan_sites }
    requires tried { All (All (λ entry. 0 < length entry.trials)) (records_of sites.now) }
    ensures { AreCounts (bins_of plan.now (records_of sites.now)) result }
{
    let mut counts = no_counts();
    for entries in sites {
        count_dies(&mut counts, plan, entries.as_slice());
    }
    counts
}

/// The counts without a die.
fn no_counts() -> [u128; BINS]
    ensures { AreCounts [] result }
{
    [0; BINS]
}

/// Counts the dies of a site.
fn count_dies(counts: &mut [u128], plan: &BoundPlan, entries: &[Record])
    requires size { length counts.old ≡ 100 }
    requires room { (bin : ℕ) → bin < 100 → slice_index counts.old bin ≤ 2 ^ 100 }
    requires tried { All (λ entry. 0 < length entry.trials) entries.now }
    ensures grown { HaveGrown counts.old (map (die_bin plan.now) entries.now) counts.new }
    ensures none { slice_index counts.new 0 ≡ slice_index counts.old 0 }
{
    for entry in entries {
        counts[die_bin(plan, entry) as usize] += 1;
    }
}
