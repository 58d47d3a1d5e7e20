//! Tables with their periods and waves.

ghost use Rattle.std.specs.Prelude.{◌≡◌, ◌<◌, ℕ, false, length, map, IfOk};
ghost use Rattle.stil_ast.specs.Meaning.Tables.{lineage, leads_into_cycle, made_table, made_tables};
ghost use Rattle.wave_tables.specs.Scope.{timed};
ghost use Rattle.wave_tables.specs.Check.{period_at, periods_in};
ghost use Rattle.wave_tables.specs.Lineage.{HasOf, AreWhole};
ghost use Rattle.wave_tables.specs.ReadWaves.{read_waves};

use crate::judge::whole_at;
use crate::lineage::Whole;
use crate::rows::rows_of;
use crate::scope::Scope;
use crate::times::ReadWave;
use std::alloc::{AllocError, Global};
use stil_ast::TableDecl;
use tester_types::{Items, Table, Text};

/// A table with its period, which was judged before, and its waves.
fn made_table(
    alloc: Global,
    scope: &Scope,
    reads: &[Items<ReadWave>],
    number: usize,
    table: &TableDecl,
    whole: &Whole,
    period: u64,
) -> Result<Table, AllocError>
    requires has { HasOf (timed scope.now) (lineage (timed scope.now).tables number) whole.now }
    requires reads { reads.now ≡ map (read_waves (timed scope.now)) (timed scope.now).tables }
    requires period { period ≡ period_at (timed scope.now) number }
    ensures { IfOk result (λ made. made
        ≡ made_table (timed scope.now).times (timed scope.now).vars (timed scope.now).names
        (timed scope.now).place (timed scope.now).tables (number, table.now)) }
{
    let signals = scope.short_count()?;
    let name = Text::from_slice(alloc, table.name.as_slice())?;
    let waves = rows_of(alloc, reads, &whole.slots, signals)?;
    Ok(Table {
        name,
        period,
        waves,
    })
}

/// The same for a table that leads into no cycle.
fn made_at(
    alloc: Global,
    scope: &Scope,
    wholes: &[Option<Whole>],
    reads: &[Items<ReadWave>],
    number: usize,
    table: &TableDecl,
    period: u64,
) -> Result<Table, AllocError>
    requires wholes { AreWhole (timed scope.now) wholes.now }
    requires reads { reads.now ≡ map (read_waves (timed scope.now)) (timed scope.now).tables }
    requires free { leads_into_cycle (timed scope.now).tables number ≡ false }
    requires period { period ≡ period_at (timed scope.now) number }
    ensures { IfOk result (λ made. made
        ≡ made_table (timed scope.now).times (timed scope.now).vars (timed scope.now).names
        (timed scope.now).place (timed scope.now).tables (number, table.now)) }
{
    match whole_at(wholes, number) {
        Some(whole) => made_table(alloc, scope, reads, number, table, whole, period),
        None => Err(AllocError),
    }
}

/// All tables with these periods, where none leads into a cycle.
pub(crate) fn made_tables(
    alloc: Global,
    scope: &Scope,
    wholes: &[Option<Whole>],
    reads: &[Items<ReadWave>],
    periods: &[u64],
) -> Result<Vec<Table>, AllocError>
    requires wholes { AreWhole (timed scope.now) wholes.now }
    requires reads { reads.now ≡ map (read_waves (timed scope.now)) (timed scope.now).tables }
    requires free { (k : ℕ) → k < length (timed scope.now).tables
        → leads_into_cycle (timed scope.now).tables k ≡ false }
    requires periods { periods.now ≡ periods_in (timed scope.now) }
    ensures { IfOk result (λ made. made.items
        ≡ made_tables (timed scope.now).times (timed scope.now).vars (timed scope.now).names
        (timed scope.now).place (timed scope.now).tables) }
{
    let tables = scope.tables();
    let mut made = Vec::with_capacity(alloc, tables.len())?;
    for number in 0..tables.len() {
        let period = periods[number];
        made.push(made_at(alloc, scope, wholes, reads, number, tables[number], period)?)?;
    }
    Ok(made)
}
