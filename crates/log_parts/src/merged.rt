//! The datalog of a whole plan, of those of its parts.

ghost use Rattle.std.specs.Prelude.{◌≡◌, ◌+◌, ◌≤◌, ◌<◌, ◌++◌, List, OnErr, length};
ghost use Rattle.plan_rows.specs.declared.row.Row.{Row};
ghost use Rattle.tester_types.specs.Outside.{Prints, HasRisen, Puts};
ghost use Rattle.datalog.specs.DatalogText.{dies_in, site_line, total_line};
ghost use Rattle.log_parts.specs.Log.{DieLog};
ghost use Rattle.log_parts.specs.Merged.{merged_text, AreOfPlan};
ghost use Rattle.log_parts.specs.Dealt.{dealt_site, dealt_text, dies_of, sums_text};

use crate::part::PartLog;
use tester_types::{Piece, Sink, SinkFault, put_all, put_each};

/// Puts the datalog of a plan, of these sites with dies, by rising number, and of what was read of its parts: each site's
/// lines as its part has them, and the totals of all parts. It takes no memory.
pub fn put_merged<K: Sink>(sink: &mut K, sites: &[u8], logs: &[PartLog]) -> Result<(), SinkFault>
    requires { 0 < length logs.now }
    ensures puts { (rows : List Row) (parts : List (List (List DieLog))) → AreOfPlan rows parts sites.now logs.now
        → Puts (K.told sink.old) (merged_text rows parts) result (K.told sink.new) }
    ensures count { K.faults sink.old ≤ K.faults sink.new }
    ensures cause { OnErr result (HasRisen (K.faults sink.old) (K.faults sink.new)) }
{
    put_lot(sink, sites, logs)
}

/// Puts the sites, and the totals of their bins.
fn put_lot<K: Sink>(sink: &mut K, sites: &[u8], logs: &[PartLog]) -> Result<(), SinkFault>
    requires { 0 < length logs.now }
    ensures { Prints (K.told sink.old) (K.faults sink.old)
        (dealt_text logs.now sites.now ++ sums_text logs.now) result (K.told sink.new) (K.faults sink.new) }
{
    put_sites(sink, sites, logs)?;
    put_totals(sink, logs)
}

/// Puts the sites, each as the part has it to which its rank was dealt.
fn put_sites<K: Sink>(sink: &mut K, sites: &[u8], logs: &[PartLog]) -> Result<(), SinkFault>
    requires { 0 < length logs.now }
    ensures { Prints (K.told sink.old) (K.faults sink.old) (dealt_text logs.now sites.now) result
        (K.told sink.new) (K.faults sink.new) }
{
    for rank in 0..sites.len() {
        put_site(sink, sites[rank], rank, logs)?;
    }
    Ok(())
}

/// Puts a site as the part has it to which its rank was dealt.
fn put_site<K: Sink>(sink: &mut K, site: u8, rank: usize, logs: &[PartLog]) -> Result<(), SinkFault>
    requires { 0 < length logs.now }
    ensures { Prints (K.told sink.old) (K.faults sink.old) (dealt_site logs.now site rank) result
        (K.told sink.new) (K.faults sink.new) }
{
    let part = rank % logs.len();
    let text = logs[part].text(rank / logs.len());
    put_text(sink, site, text)
}

/// Puts the line of a site, and what stands behind it.
fn put_text<K: Sink>(sink: &mut K, site: u8, text: &[u8]) -> Result<(), SinkFault>
    ensures { Prints (K.told sink.old) (K.faults sink.old) (site_line site ++ text.now) result
        (K.told sink.new) (K.faults sink.new) }
{
    let pieces = [
        Piece::Text(b"site "),
        Piece::Number(u128::from(site)),
        Piece::Text(b"\n"),
        Piece::Text(text),
    ];
    put_each(sink, &pieces)
}

/// Puts the totals of the bins of all parts.
fn put_totals<K: Sink>(sink: &mut K, logs: &[PartLog]) -> Result<(), SinkFault>
    ensures { Prints (K.told sink.old) (K.faults sink.old) (sums_text logs.now) result
        (K.told sink.new) (K.faults sink.new) }
{
    for bin in 1..100 {
        put_total(sink, bin, count_all(bin, logs))?;
    }
    Ok(())
}

/// Puts how many dies a bin has, and nothing for a bin without a die.
fn put_total<K: Sink>(sink: &mut K, bin: u8, dies: u128) -> Result<(), SinkFault>
    ensures { Prints (K.told sink.old) (K.faults sink.old) (total_line bin dies) result
        (K.told sink.new) (K.faults sink.new) }
{
    if dies == 0 {
        return Ok(());
    }
    let line = [
        Piece::Text(b"total "),
        Piece::Number(u128::from(bin)),
        Piece::Text(b" "),
        Piece::Number(dies),
        Piece::Text(b"\n"),
    ];
    put_each(sink, &line)
}

/// How many dies of all parts fell into the bin.
fn count_all(bin: u8, logs: &[PartLog]) -> u128
    ensures { result ≡ dies_of logs.now bin }
{
    let mut dies = 0u128;
    for log in logs {
        dies += log.dies_in(bin) as u128;
    }
    dies
}
