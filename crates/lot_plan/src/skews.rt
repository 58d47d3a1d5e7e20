//! The skews of a plan: what each may be, and those of each site.

ghost use Rattle.std.specs.Prelude.{◌≡◌, ◌==◌, ◌≤◌, if◌then◌else◌, Some, None, map, filter, length, IfOk};
ghost use Rattle.std.specs.List.{list_all, range_with_len};
ghost use Rattle.text_bytes.specs.Limits.{most_signals};
ghost use Rattle.text_bytes.specs.Texts.{behind};
ghost use Rattle.plan_rows.specs.Rows.{skews_at};
ghost use Rattle.plan_rows.specs.declared.fault.PlanFault.TheVariants.{SkewOutside};
ghost use Rattle.lot_plan.specs.Skews.{wave_stays, waves_stay, skew_refusal, skew_by, skews_of};

use crate::pins::place_of;
use crate::rows::each_of;
use edge_gen::stays_inside;
use packed_code::{Code, CodeSignal};
use plan_rows::{PlanFault, Row, SkewRow};
use std::alloc::Global;
use tester_types::{Items, NoMemory, Table};

/// The fault of the skew's row of this number: its signal isn't there, or an event leaves its cycle.
pub(crate) fn skew_refusal(
    signals: &[CodeSignal],
    code: &Code,
    number: u32,
    row: &SkewRow,
) -> Option<PlanFault>
    requires { length signals.now ≤ most_signals }
    ensures { result ≡ skew_refusal signals.now code.now.tables number row.now }
{
    match place_of(signals, row.signal.as_slice()) {
        Some(signal) => skew_fault(waves_stay(code, signal, row.skew), number),
        None => Some(PlanFault::UnknownName(number)),
    }
}

/// The fault of a row whose events leave their cycle.
fn skew_fault(stay: bool, number: u32) -> Option<PlanFault>
    ensures { result ≡ (if stay then None else Some (SkewOutside number)) }
{
    if stay {
        None
    } else {
        Some(PlanFault::SkewOutside(number))
    }
}

/// Whether each wave of a signal stays inside its cycle, in each table, where a skew moves it.
#[tactic(auto, using(crate::proofs::SkewLemmas::goes_on, crate::proofs::SkewLemmas::stops))]
fn waves_stay(code: &Code, signal: u16, skew: i64) -> bool
    ensures { result ≡ waves_stay code.now.tables signal skew }
{
    for number in 0..code.tables() {
        if !stay_in(code.table(number), signal, skew) {
            return false;
        }
    }
    true
}

/// Whether those of a table do.
fn stay_in(table: &Table, signal: u16, skew: i64) -> bool
    ensures { result ≡ list_all (wave_stays signal skew table.now.period) table.now.waves }
{
    table.waves.as_slice().iter().all(|wave| wave.signal != signal
        || stays_inside(wave, table.period, skew))
}

/// The rows of a site.
fn rows_at<'a>(alloc: Global, rows: &[&'a SkewRow], site: u8) -> Result<Vec<&'a SkewRow>, NoMemory>
    ensures { IfOk result (λ found. behind found.items ≡ filter (λ k. k.site == site) (behind rows.now)) }
{
    let mut found = Vec::new(alloc);
    for row in rows {
        if row.site == site {
            found.push(*row)?;
        }
    }
    Ok(found)
}

/// The skew of the signal of this name by the rows of a site: 0 where it has none.
fn skew_by(rows: &[&SkewRow], name: &[u8]) -> i64
    ensures { result ≡ skew_by (behind rows.now) name.now }
{
    for row in rows {
        if name == row.signal.as_slice() {
            return row.skew;
        }
    }
    0
}

/// The skews of the signals, by the rows of a site.
fn skews_of(
    alloc: Global,
    signals: &[CodeSignal],
    rows: &[&SkewRow],
) -> Result<Items<i64>, NoMemory>
    ensures { IfOk result (λ skews. skews ≡ skews_of signals.now (behind rows.now)) }
{
    let mut skews = Vec::new(alloc);
    for signal in signals {
        skews.push(skew_by(rows, signal.name.as_slice()))?;
    }
    Ok(Items::from_vec(skews))
}

/// The skews of the signals at each site.
pub(crate) fn all_skews(
    alloc: Global,
    rows: &[Row],
    signals: &[CodeSignal],
    sites: u8,
) -> Result<Items<Items<i64>>, NoMemory>
    ensures { IfOk result (λ all. all
        ≡ map (λ site. skews_of signals.now (skews_at site rows.now)) (range_with_len 0 sites)) }
{
    let skewed = each_of::<SkewRow>(alloc, rows)?;
    let mut all = Vec::new(alloc);
    for site in 0..sites {
        let own = rows_at(alloc, &skewed, site)?;
        all.push(skews_of(alloc, signals, &own)?)?;
    }
    Ok(Items::from_vec(all))
}
