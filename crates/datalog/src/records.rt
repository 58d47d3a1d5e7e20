//! The text of a record: a die with its tries and its bin.

ghost use Rattle.std.specs.Prelude.{◌≡◌, ◌<◌, ◌≤◌, length};
ghost use Rattle.tester_types.specs.Outside.{Prints};
ghost use Rattle.plan_rows.specs.Rows.{sites_of, dies_at};
ghost use Rattle.lot_plan.specs.Bound.{die_at};
ghost use Rattle.site_meaning.specs.Part.{part_of};
ghost use Rattle.site_meaning.specs.Records.{Sound};
ghost use Rattle.datalog.specs.DatalogText.{die_line, bin_line, die_bin, record_text};
ghost use Rattle.datalog.specs.Printable.{IsPrintable};

use crate::trials::{put_numbered, put_trials};
use lot_plan::BoundPlan;
use packed_code::Code;
use tester_types::{Piece, Record, Sink, SinkFault, put_each};

/// No command calls it alone: puts the text of a sound record, its die's name, its tries, and its bin. It takes no memory.
pub fn print_record<K: Sink>(
    code: &Code,
    plan: &BoundPlan,
    entry: &Record,
    sink: &mut K,
) -> Result<(), SinkFault>
    requires program { plan.now.program ≡ code.now }
    requires sound { Sound (part_of plan.now entry.now.site) entry.now }
    ensures { Prints (K.told sink.old) (K.faults sink.old) (record_text code.now plan.now entry.now) result
        (K.told sink.new) (K.faults sink.new) }
{
    let _sites = plan.sites();
    put_record(sink, code, plan, entry)
}

/// Puts the text of a record that has all that the text needs.
pub(crate) fn put_record<K: Sink>(
    sink: &mut K,
    code: &Code,
    plan: &BoundPlan,
    entry: &Record,
) -> Result<(), SinkFault>
    requires { IsPrintable code.now plan.now entry.now }
    ensures { Prints (K.told sink.old) (K.faults sink.old) (record_text code.now plan.now entry.now) result
        (K.told sink.new) (K.faults sink.new) }
{
    put_die(sink, plan, entry)?;
    put_trials(sink, code, entry.trials.as_slice())?;
    put_bin(sink, plan, entry)
}

/// Puts the name of a die.
fn put_die<K: Sink>(sink: &mut K, plan: &BoundPlan, entry: &Record) -> Result<(), SinkFault>
    requires site { entry.now.site < sites_of plan.now.rows }
    requires die { entry.now.die < length (dies_at entry.now.site plan.now.rows) }
    ensures { Prints (K.told sink.old) (K.faults sink.old)
        (die_line (die_at plan.now.rows entry.now.site entry.now.die).name) result
        (K.told sink.new) (K.faults sink.new) }
{
    let line = [
        Piece::Text(b"die "),
        Piece::Name(plan.die_name(entry.site, entry.die)),
        Piece::Text(b"\n"),
    ];
    put_each(sink, &line)
}

/// Puts the bin of a die.
fn put_bin<K: Sink>(sink: &mut K, plan: &BoundPlan, entry: &Record) -> Result<(), SinkFault>
    requires { 0 < length entry.now.trials }
    ensures { Prints (K.told sink.old) (K.faults sink.old) (bin_line (die_bin plan.now entry.now)) result
        (K.told sink.new) (K.faults sink.new) }
{
    put_numbered(sink, b"bin ", u128::from(die_bin(plan, entry)))
}

/// The bin of a die: that of the verdict of its last try.
pub(crate) fn die_bin(plan: &BoundPlan, entry: &Record) -> u8
    requires { 0 < length entry.now.trials }
    ensures bin { result ≡ die_bin plan.now entry.now }
    ensures within { (1 ≤ result) × (result ≤ 99) }
{
    let trials = entry.trials.as_slice();
    plan.bin(&trials[trials.len() - 1].verdict)
}
