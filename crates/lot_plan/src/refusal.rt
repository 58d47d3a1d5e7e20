//! The rows of a plan against the program and the netlists that it is bound to.
ghost use Rattle.std.specs.Prelude.{◌≡◌, ◌<◌, ◌≤◌, ◌^◌, map, length, slice_index_or};
ghost use Rattle.std.specs.List.{list_any};
ghost use Rattle.std.specs.Str.{bytes_eq};
ghost use Rattle.std.specs.Arc.{arc_value};
ghost use Rattle.text_bytes.specs.Limits.{most_signals};
ghost use Rattle.bench_net.specs.Views.{texts};
ghost use Rattle.lot_plan.specs.Bound.{no_circuit};
ghost use Rattle.lot_plan.specs.Groups.{file_in, circuit_in};
ghost use Rattle.lot_plan.specs.Skews.{skew_refusal};
ghost use Rattle.lot_plan.specs.Refusal.{is_net, unless, ending_refusal, row_refusal, rows_refusal};

use crate::bindings::net_number;
use crate::groups::SiteGroup;
use crate::names::is_among;
use crate::skews::skew_refusal;
use bench_net::Netlist;
use indexmap::IndexSet;
use packed_code::{Code, CodeSignal};
use plan_rows::{Ending, FaultRow, PlanFault, Row};
use std::sync::Arc;

/// The number of the file of a die, if it is there.
fn file_in(sites: &[SiteGroup<'_>], site: u8, die: u16) -> Option<usize>
    ensures { result ≡ file_in sites.now site die }
{
    let dies = sites.get(site as usize)?;
    let die = dies.as_slice().get(die as usize)?;
    Some(die.file())
}

/// Whether a netlist has a net of this name.
fn is_net(net: &Netlist, name: &[u8]) -> bool
    ensures { result ≡ is_net net.now name.now }
{
    net_number(net, name) < net.nets()
}

/// Whether the net of a fault is there.
fn has_net(sites: &[SiteGroup<'_>], nets: &[Arc<Netlist>], fault: &FaultRow) -> bool
    ensures { result
        ≡ is_net (circuit_in sites.now (map arc_value nets.now) fault.now.site fault.now.die) fault.now.net }
{
    match file_in(sites, fault.site, fault.die) {
        Some(file) => has_name(nets, file, fault.net.as_slice()),
        None => false,
    }
}

/// Whether the netlist of a file has a net of this name.
fn has_name(nets: &[Arc<Netlist>], file: usize, name: &[u8]) -> bool
    ensures { result ≡ is_net (slice_index_or (map arc_value nets.now) file no_circuit) name.now }
{
    match nets.get(file) {
        Some(net) => is_net(net, name),
        None => false,
    }
}

/// The fault of a row where the test fails.
fn unless(test: bool, fault: PlanFault) -> Option<PlanFault>
    ensures { result ≡ unless test fault }
{
    if test { None } else { Some(fault) }
}

/// The fault of a bin row with this ending.
fn ending_refusal(execs: u16, number: u32, ending: Ending) -> Option<PlanFault>
    ensures { result ≡ ending_refusal execs number ending }
{
    match ending {
        Ending::Fail(exec) => unless(u16::from(exec) < execs, PlanFault::OutOfRange(number)),
        _ => None,
    }
}

/// The fault of the row of this number.
fn row_refusal(
    names: &IndexSet<&[u8]>,
    signals: &[CodeSignal],
    code: &Code,
    sites: &[SiteGroup<'_>],
    nets: &[Arc<Netlist>],
    number: u32,
    row: &Row,
) -> Option<PlanFault>
    requires { length signals.now ≤ most_signals }
    ensures { result ≡ row_refusal (λ name. list_any (bytes_eq name) (texts names.now.keys))
        (skew_refusal signals.now code.now.tables) (length code.now.execs)
        (circuit_in sites.now (map arc_value nets.now)) number row.now }
{
    match row {
        Row::Clock(signal) => unless(
            is_among(names, signal.as_slice()),
            PlanFault::UnknownName(number),
        ),
        Row::Bind(bind) => unless(
            is_among(names, bind.signal.as_slice()),
            PlanFault::UnknownName(number),
        ),
        Row::Fault(fault) => unless(has_net(sites, nets, fault), PlanFault::UnknownName(number)),
        Row::Bin(bin) => ending_refusal(code.execs(), number, bin.ending),
        Row::Skew(skew) => skew_refusal(signals, code, number, skew),
        _ => None,
    }
}

/// The fault of the first row that is refused: `names` are those of the signals.
pub(crate) fn rows_refusal(
    names: &IndexSet<&[u8]>,
    signals: &[CodeSignal],
    code: &Code,
    sites: &[SiteGroup<'_>],
    nets: &[Arc<Netlist>],
    rows: &[Row],
) -> Option<PlanFault>
    requires rows { length rows.now < 2 ^ 32 }
    requires signals { length signals.now ≤ most_signals }
    ensures { result ≡ rows_refusal (λ name. list_any (bytes_eq name) (texts names.now.keys))
        (skew_refusal signals.now code.now.tables) (length code.now.execs)
        (circuit_in sites.now (map arc_value nets.now)) 1 rows.now }
{
    let mut number = 0;
    for row in rows {
        number += 1;
        let refusal = row_refusal(names, signals, code, sites, nets, number, row);
        if refusal.is_some() {
            return refusal;
        }
    }
    None
}
