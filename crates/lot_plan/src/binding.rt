//! A plan bound to a program and netlists, or the first refusal.
ghost use Rattle.std.specs.Prelude.{◌≡◌, ◌<◌, ◌≤◌, ◌^◌, ℕ, List, None, Some, map, length, IfOk};
ghost use Rattle.std.specs.List.{list_any};
ghost use Rattle.std.specs.Option.{option_map};
ghost use Rattle.std.specs.Str.{bytes_eq};
ghost use Rattle.bench_net.specs.Views.{texts};
ghost use Rattle.std.specs.Arc.{arc_value};
ghost use Rattle.text_bytes.specs.Limits.{most_signals};
ghost use Rattle.plan_rows.specs.declared.fault.PlanFault.TheVariants as refused;
ghost use Rattle.plan_rows.specs.Rows.{AreKept, sites_of, files_of};
ghost use Rattle.lot_plan.specs.Needs.{clock_of, needs_of};
ghost use Rattle.lot_plan.specs.Groups.{AreGroups};
ghost use Rattle.plan_rows.specs.Plan.{Answers};
ghost use Rattle.lot_plan.specs.Refusal.{is_signal, refused_row, first_unbound, AreBindings, refusal};
ghost use Rattle.lot_plan.specs.Stored.{IsMade};

use crate::bindings::bindings_of;
use crate::bound_die::BoundDie;
use crate::groups::{SiteGroup, groups_of};
use crate::names::{files_of, signal_names};
use crate::pins::{clock_number, pins_of};
use crate::rows::{each_of, lot_of};
use crate::{building, refusal};
use bench_net::Netlist;
use die_sim::Binding;
use indexmap::IndexSet;
use packed_code::{Code, CodeSignal};
use plan_rows::{DieRow, PlanFault, Row};
use std::alloc::Global;
use std::sync::Arc;
use tester_types::{Items, NoMemory};

/// The bindings to the netlists, and the dies by sites.
#[derive(Drop)]
pub(crate) struct Made {
    pub(crate) bindings: Items<Arc<Binding>>,
    pub(crate) dies: Items<Items<BoundDie>>,
}

/// The rows of all dies, by sites.
fn groups_by_sites(alloc: Global, rows: &[Row], sites: u8) -> Result<Vec<SiteGroup<'_>>, NoMemory>
    requires kept { AreKept rows.now }
    requires sites { sites ≡ sites_of rows.now }
    ensures { IfOk result (λ groups. AreGroups rows.now groups.items) }
{
    let dies = each_of::<DieRow>(alloc, rows)?;
    let files = files_of(alloc, &dies)?;
    Ok(groups_of(alloc, rows, &dies, sites, &files)?)
}

/// Refuses the first row that isn't accepted.
fn check_rows(
    alloc: Global,
    rows: &[Row],
    signals: &[CodeSignal],
    code: &Code,
    groups: &[SiteGroup<'_>],
    nets: &[Arc<Netlist>],
) -> Result<(), PlanFault>
    requires kept { AreKept rows.now }
    requires few { length rows.now < 2 ^ 32 }
    requires groups { AreGroups rows.now groups.now }
    requires signals { signals.now ≡ code.now.signals }
    requires few_signals { length signals.now ≤ most_signals }
    ensures { Answers
        (λ _. refused_row (record { rows = rows.now; program = code.now; circuits = map arc_value nets.now }) ≡ None)
        (λ e. refused_row (record { rows = rows.now; program = code.now; circuits = map arc_value nets.now }) ≡ Some e)
        result }
{
    let names = names_of(alloc, signals)?;
    match refusal::rows_refusal(&names, signals, code, groups, nets, rows) {
        Some(fault) => Err(fault),
        None => Ok(()),
    }
}

/// The names of signals.
fn names_of(alloc: Global, signals: &[CodeSignal]) -> Result<IndexSet<&[u8]>, NoMemory>
    ensures { IfOk result (λ names. (name : List ℕ) →
        list_any (bytes_eq name) (texts names.keys) ≡ is_signal signals.now name) }
{
    Ok(signal_names(alloc, signals)?)
}

/// The bindings of the signals to the netlists, or the refusal of the first that has no net.
fn bind_signals(
    alloc: Global,
    rows: &[Row],
    signals: &[CodeSignal],
    nets: &[Arc<Netlist>],
) -> Result<Vec<Arc<Binding>>, PlanFault>
    requires { length signals.now ≤ most_signals }
    ensures { Answers
        (λ bindings. AreBindings (map arc_value nets.now) (needs_of rows.now signals.now)
        (clock_of rows.now signals.now) (map arc_value bindings.items))
        (λ e. option_map refused.Unbound (first_unbound (needs_of rows.now signals.now) (map arc_value nets.now))
        ≡ Some e)
        result }
{
    let pins = pins_of(alloc, rows, signals)?;
    bindings_of(alloc, nets, &pins, clock_number(rows, signals))
}

/// What a bound plan stores beside its rows, or the first refusal.
pub(crate) fn made_of(
    alloc: Global,
    rows: &[Row],
    sites: u8,
    signals: &[CodeSignal],
    code: &Code,
    nets: &[Arc<Netlist>],
) -> Result<Made, PlanFault>
    requires kept { AreKept rows.now }
    requires few { length rows.now < 2 ^ 32 }
    requires sites { sites ≡ sites_of rows.now }
    requires signals { signals.now ≡ code.now.signals }
    requires few_signals { length signals.now ≤ most_signals }
    requires files { length nets.now ≡ length (files_of rows.now) }
    ensures { Answers
        (λ made. IsMade (record { rows = rows.now; program = code.now; circuits = map arc_value nets.now })
        (map arc_value made.bindings) made.dies)
        (λ e. refusal (record { rows = rows.now; program = code.now; circuits = map arc_value nets.now }) ≡ Some e)
        result }
{
    let groups = groups_by_sites(alloc, rows, sites)?;
    check_rows(alloc, rows, signals, code, &groups, nets)?;
    let bindings = bind_signals(alloc, rows, signals, nets)?;
    let dies = building::dies_of(alloc, &groups, nets, &bindings, lot_of(rows).tries)?;
    Ok(Made {
        bindings: Items::from_vec(bindings),
        dies,
    })
}
