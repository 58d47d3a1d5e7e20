//! The text of a lot: the records of each site, and the totals of their bins.

ghost use Rattle.std.specs.Prelude.{◌≡◌, ◌<◌, All};
ghost use Rattle.std.specs.List.{flat_map};
ghost use Rattle.tester_types.specs.Outside.{Prints};
ghost use Rattle.tester_types.specs.Records.{records_of};
ghost use Rattle.datalog.specs.DatalogText.{record_text, site_text, filed_text, numbered, lot_text};
ghost use Rattle.datalog.specs.Printable.{AreSound, IsPrintable, IsPrintableAt, ArePrintable};

use crate::records::put_record;
use crate::summary::put_sums;
use crate::trials::put_numbered;
use floor_core::BookState;
use lot_plan::BoundPlan;
use packed_code::Code;
use tester_types::{Record, RecordList, Sink, SinkFault};

/// Puts the text of a lot whose records are sound: the records of each site, by the sites' numbers, and how many dies each
/// bin has. It takes no memory.
pub fn print_lot<K: Sink>(
    code: &Code,
    plan: &BoundPlan,
    book: &BookState,
    sink: &mut K,
) -> Result<(), SinkFault>
    requires program { plan.now.program ≡ code.now }
    requires sound { AreSound plan.now book.now }
    ensures { Prints (K.told sink.old) (K.faults sink.old) (lot_text code.now plan.now (records_of book.now)) result
        (K.told sink.new) (K.faults sink.new) }
{
    let _sites = plan.sites();
    put_lot(sink, code, plan, book.sites())
}

/// Puts the sites of a book, and the totals of their bins.
fn put_lot<K: Sink>(
    sink: &mut K,
    code: &Code,
    plan: &BoundPlan,
    sites: &[RecordList],
) -> Result<(), SinkFault>
    requires { ArePrintable code.now plan.now (records_of sites.now) }
    ensures { Prints (K.told sink.old) (K.faults sink.old) (lot_text code.now plan.now (records_of sites.now)) result
        (K.told sink.new) (K.faults sink.new) }
{
    put_sites(sink, code, plan, sites)?;
    put_sums(sink, plan, sites)
}

/// Puts the sites, by their numbers.
fn put_sites<K: Sink>(
    sink: &mut K,
    code: &Code,
    plan: &BoundPlan,
    sites: &[RecordList],
) -> Result<(), SinkFault>
    requires { ArePrintable code.now plan.now (records_of sites.now) }
    ensures { Prints (K.told sink.old) (K.faults sink.old) (numbered (filed_text code.now plan.now) 0 sites.now) result
        (K.told sink.new) (K.faults sink.new) }
{
    for (number, entries) in sites.iter().enumerate() {
        put_site(sink, code, plan, number, entries.as_slice())?;
    }
    Ok(())
}

/// Puts a site with its dies, and nothing for a site without records.
fn put_site<K: Sink>(
    sink: &mut K,
    code: &Code,
    plan: &BoundPlan,
    number: usize,
    entries: &[Record],
) -> Result<(), SinkFault>
    requires { All (IsPrintableAt code.now plan.now number) entries.now }
    ensures { Prints (K.told sink.old) (K.faults sink.old) (site_text code.now plan.now number entries.now) result
        (K.told sink.new) (K.faults sink.new) }
{
    if entries.is_empty() {
        return Ok(());
    }
    put_numbered(sink, b"site ", number as u128)?;
    put_records(sink, code, plan, entries)
}

/// Puts the texts of records.
fn put_records<K: Sink>(
    sink: &mut K,
    code: &Code,
    plan: &BoundPlan,
    entries: &[Record],
) -> Result<(), SinkFault>
    requires { All (IsPrintable code.now plan.now) entries.now }
    ensures { Prints (K.told sink.old) (K.faults sink.old) (flat_map (record_text code.now plan.now) entries.now) result
        (K.told sink.new) (K.faults sink.new) }
{
    for entry in entries {
        put_record(sink, code, plan, entry)?;
    }
    Ok(())
}
