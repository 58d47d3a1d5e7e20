//! The rows of a plan by their kinds.
ghost use Rattle.std.specs.Prelude.{◌≡◌, ◌+◌, ◌≤◌, All, IfOk, fold, max, slice_get};
ghost use Rattle.std.specs.Option.{option_copied};
ghost use Rattle.plan_rows.specs.Limits.{last_site};
ghost use Rattle.text_bytes.specs.Texts.{behind};
ghost use Rattle.plan_rows.specs.Rows.{as_clock, each_of, lot_of};
ghost use Rattle.lot_plan.specs.Readings.{first_of};

use plan_rows::{BinRow, BindRow, DieRow, FaultRow, LotRow, Row, SkewRow, StopRow};
use std::alloc::{AllocError, Global};
use tester_types::Text;

/// What rows of one kind say.
pub(crate) trait Kind: Sized {
    ghost use Rattle.std.specs.Prelude.{◌≡◌, Option};
    ghost use Rattle.std.specs.Option.{option_copied};
    ghost use Rattle.plan_rows.specs.declared.row.Row.{Row};

    ghost said: { Row → Option Self };

    /// What a row says, if it is of this kind.
    fn of(row: &Row) -> Option<&Self>
        ensures { option_copied result ≡ said row.now };
}

impl Kind for LotRow {
    ghost use Rattle.plan_rows.specs.Rows.{as_lot};

    ghost said = { as_lot };

    fn of(row: &Row) -> Option<&LotRow> {
        match row {
            Row::Lot(lot) => Some(lot),
            _ => None,
        }
    }
}

/// The clock's row says its name.
impl Kind for Text {
    ghost use Rattle.plan_rows.specs.Rows.{as_clock};

    ghost said = { as_clock };

    fn of(row: &Row) -> Option<&Text> {
        match row {
            Row::Clock(signal) => Some(signal),
            _ => None,
        }
    }
}

impl Kind for BindRow {
    ghost use Rattle.plan_rows.specs.Rows.{as_bind};

    ghost said = { as_bind };

    fn of(row: &Row) -> Option<&BindRow> {
        match row {
            Row::Bind(bind) => Some(bind),
            _ => None,
        }
    }
}

impl Kind for DieRow {
    ghost use Rattle.plan_rows.specs.Rows.{as_die};

    ghost said = { as_die };

    fn of(row: &Row) -> Option<&DieRow> {
        match row {
            Row::Die(die) => Some(die),
            _ => None,
        }
    }
}

impl Kind for FaultRow {
    ghost use Rattle.plan_rows.specs.Rows.{as_fault};

    ghost said = { as_fault };

    fn of(row: &Row) -> Option<&FaultRow> {
        match row {
            Row::Fault(fault) => Some(fault),
            _ => None,
        }
    }
}

impl Kind for StopRow {
    ghost use Rattle.plan_rows.specs.Rows.{as_stop};

    ghost said = { as_stop };

    fn of(row: &Row) -> Option<&StopRow> {
        match row {
            Row::Stop(stop) => Some(stop),
            _ => None,
        }
    }
}

impl Kind for BinRow {
    ghost use Rattle.plan_rows.specs.Rows.{as_bin};

    ghost said = { as_bin };

    fn of(row: &Row) -> Option<&BinRow> {
        match row {
            Row::Bin(bin) => Some(bin),
            _ => None,
        }
    }
}

impl Kind for SkewRow {
    ghost use Rattle.plan_rows.specs.Rows.{as_skew};

    ghost said = { as_skew };

    fn of(row: &Row) -> Option<&SkewRow> {
        match row {
            Row::Skew(skew) => Some(skew),
            _ => None,
        }
    }
}

/// What the rows of a kind say, in order.
pub(crate) fn each_of<K: Kind>(alloc: Global, rows: &[Row]) -> Result<Vec<&K>, AllocError>
    ensures { IfOk result (λ found. behind found.items ≡ each_of K.said rows.now) }
{
    let mut found = Vec::new(alloc);
    for row in rows {
        if let Some(said) = K::of(row) {
            found.push(said)?;
        }
    }
    Ok(found)
}

/// The same, copied.
pub(crate) fn copies_of<K: Kind + Copy>(alloc: Global, rows: &[Row]) -> Result<Vec<K>, AllocError>
    ensures { IfOk result (λ found. found.items ≡ each_of K.said rows.now) }
{
    let mut found = Vec::new(alloc);
    for row in rows {
        if let Some(said) = K::of(row) {
            found.push(*said)?;
        }
    }
    Ok(found)
}

/// What the first row of a kind says, if there is one.
pub(crate) fn first<K: Kind>(rows: &[Row]) -> Option<&K>
    ensures { option_copied result ≡ slice_get (each_of K.said rows.now) 0 }
{
    for row in rows {
        let said = K::of(row);
        if said.is_some() {
            return said;
        }
    }
    None
}

/// The name of the clock, if there is one.
pub(crate) fn clock_of(rows: &[Row]) -> Option<&[u8]>
    ensures { option_copied result ≡ slice_get (each_of as_clock rows.now) 0 }
{
    match first::<Text>(rows) {
        Some(clock) => Some(clock.as_slice()),
        None => None,
    }
}

/// The lot's own row, with zeros where there is none.
pub(crate) fn lot_of(rows: &[Row]) -> LotRow
    ensures { result ≡ lot_of rows.now }
{
    match first::<LotRow>(rows) {
        Some(lot) => *lot,
        None => LotRow {
            batch: 0,
            tries: 0,
            keep: 0,
        },
    }
}

/// How many sites there are with this one beside so many.
fn with_site(sites: u8, site: u8) -> u8
    requires { site ≤ last_site }
    ensures { result ≡ max sites (site + 1) }
{
    if sites <= site { site + 1 } else { sites }
}

/// How many sites dies have: the greatest site plus 1, and none without a die.
pub(crate) fn sites_of(dies: &[&DieRow]) -> u8
    requires { All (λ d. d.site ≤ last_site) (behind dies.now) }
    ensures { result ≡ fold (λ most d. max most (d.site + 1)) 0 (behind dies.now) }
{
    let mut sites = 0;
    for die in dies {
        sites = with_site(sites, die.site);
    }
    sites
}

/// The site of the first die row, and the number there of its die, if there is a die.
pub(crate) fn first_of(rows: &[Row]) -> Option<(u8, u16)>
    ensures { result ≡ first_of rows.now }
{
    match first::<DieRow>(rows) {
        Some(die) => Some((die.site, 0)),
        None => None,
    }
}
