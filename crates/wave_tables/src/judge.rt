//! The first fault of tables.

ghost use Rattle.std.specs.Prelude.{◌≡◌, Some, None, pos, map, slice_get, slice_index_or, IfSome};
ghost use Rattle.stil_ast.specs.Meaning.Tables.{lineage};
ghost use Rattle.stil_ast.specs.Faults.TableFaults.{table_fault, tables_fault};
ghost use Rattle.wave_tables.specs.Scope.{timed};
ghost use Rattle.wave_tables.specs.Lineage.{HasOf, AreWhole};
ghost use Rattle.wave_tables.specs.ReadWaves.{read_waves};
ghost use Rattle.wave_tables.specs.Standing.{MapsTable};
ghost use Rattle.wave_tables.specs.Check.{FindsAt, JudgesAt, IsJudged, count_fault, behind_period, behind_names, periods_in, with_waves};

use crate::check::{check_inherits, check_period, check_signals};
use crate::lineage::Whole;
use crate::rows::slot_count;
use crate::scope::Scope;
use crate::source::Source;
use crate::standing::{Heir, check_inherited};
use crate::times::ReadWave;
use crate::trouble::{Trouble, fault};
use std::alloc::Global;
use stil_ast::{StilKind, TableDecl};
use tester_types::Items;
use text_bytes::MOST_WAVES;

/// The period of a table, and how many waves there are with its own.
#[derive(Drop)]
pub(crate) struct Judged {
    period: u64,
    total: u64,
}

/// The table of this number, with all that it has.
pub(crate) fn whole_at(wholes: &[Option<Whole>], number: usize) -> Option<&Whole>
    ensures { IfSome result (λ whole. slice_index_or wholes.now number None ≡ Some whole.now) }
{
    match wholes.get(number) {
        Some(Some(whole)) => Some(whole),
        Some(None) | None => None,
    }
}

/// How many waves there are with those of a table, where `before` stand before it; refuses too many.
fn check_count(
    scope: &Scope,
    number: usize,
    table: &TableDecl,
    slots: &[Option<Source>],
    before: u64,
) -> Result<u64, Trouble>
    requires maps { MapsTable (timed scope.now) number slots.now }
    ensures { JudgesAt (timed scope.now) before number
        (λ base. count_fault (timed scope.now) base (number, table.now))
        (λ total. total ≡ with_waves (timed scope.now) before number) result }
{
    let signals = scope.short_count()?;
    let count = slot_count(slots, signals)?;
    let total = before.checked_add(count).ok_or(Trouble::NoMemory)?;
    if total <= MOST_WAVES as u64 {
        Ok(total)
    } else {
        Err(fault(StilKind::TooLarge, table.line))
    }
}

/// Judges what stands behind the period of a table; how many waves there are with its own.
fn check_behind_period(
    alloc: Global,
    scope: &Scope,
    heir: &Heir,
    table: &TableDecl,
    reads: &[Items<ReadWave>],
    before: u64,
) -> Result<u64, Trouble>
    requires maps { MapsTable (timed scope.now) heir.now.number heir.now.slots.now }
    requires at { slice_get (timed scope.now).tables heir.now.number ≡ Some table.now }
    requires reads { reads.now ≡ map (read_waves (timed scope.now)) (timed scope.now).tables }
    ensures { JudgesAt (timed scope.now) before heir.now.number
        (λ base. behind_period (timed scope.now) base (heir.now.number, table.now) (pos heir.now.period))
        (λ total. total ≡ with_waves (timed scope.now) before heir.now.number) result }
{
    let own = reads[heir.number].as_slice();
    match check_signals(alloc, scope, heir.period, table.waveforms.as_slice(), own) {
        Err(trouble) => Err(trouble),
        Ok(()) => match check_inherited(alloc, scope, heir, reads) {
            Err(trouble) => Err(trouble),
            Ok(()) => check_count(scope, heir.number, table, heir.slots, before),
        },
    }
}

/// Judges what stands behind the names that a table inherits; its period, and how many waves there are with its own.
fn check_whole(
    alloc: Global,
    scope: &Scope,
    reads: &[Items<ReadWave>],
    number: usize,
    table: &TableDecl,
    whole: &Whole,
    before: u64,
) -> Result<Judged, Trouble>
    requires has { HasOf (timed scope.now) (lineage (timed scope.now).tables number) whole.now }
    requires at { slice_get (timed scope.now).tables number ≡ Some table.now }
    requires reads { reads.now ≡ map (read_waves (timed scope.now)) (timed scope.now).tables }
    ensures { JudgesAt (timed scope.now) before number
        (λ base. behind_names (timed scope.now) base (number, table.now))
        (λ judged. IsJudged (timed scope.now) before number judged) result }
{
    match check_period(whole.period, table.line) {
        Err(trouble) => Err(trouble),
        Ok(period) => {
            let slots = whole.slots.as_slice();
            let heir = Heir {
                number,
                period,
                slots,
            };
            match check_behind_period(alloc, scope, &heir, table, reads, before) {
                Ok(total) => Ok(Judged { period, total }),
                Err(trouble) => Err(trouble),
            }
        }
    }
}

/// Judges the table of this number; its period, and how many waves there are with its own.
fn check_table(
    alloc: Global,
    scope: &Scope,
    wholes: &[Option<Whole>],
    reads: &[Items<ReadWave>],
    number: usize,
    table: &TableDecl,
    before: u64,
) -> Result<Judged, Trouble>
    requires wholes { AreWhole (timed scope.now) wholes.now }
    requires reads { reads.now ≡ map (read_waves (timed scope.now)) (timed scope.now).tables }
    requires at { slice_get (timed scope.now).tables number ≡ Some table.now }
    ensures { JudgesAt (timed scope.now) before number
        (λ base. table_fault (timed scope.now) base (number, table.now))
        (λ judged. IsJudged (timed scope.now) before number judged) result }
{
    match check_inherits(scope, wholes, table.inherits.as_slice()) {
        Err(trouble) => Err(trouble),
        Ok(()) => match whole_at(wholes, number) {
            Some(whole) => check_whole(alloc, scope, reads, number, table, whole, before),
            None => Err(Trouble::NoMemory),
        },
    }
}

/// Judges the tables in text order, where the executives before have so many waves: their periods, or the first fault.
pub(crate) fn check_tables(
    alloc: Global,
    scope: &Scope,
    wholes: &[Option<Whole>],
    reads: &[Items<ReadWave>],
    before: u64,
) -> Result<Vec<u64>, Trouble>
    requires wholes { AreWhole (timed scope.now) wholes.now }
    requires reads { reads.now ≡ map (read_waves (timed scope.now)) (timed scope.now).tables }
    ensures { FindsAt (timed scope.now).place (tables_fault (timed scope.now) before)
        (λ periods. periods.items ≡ periods_in (timed scope.now)) result }
{
    let tables = scope.tables();
    let mut periods = Vec::with_capacity(alloc, tables.len())?;
    let mut total = before;
    for number in 0..tables.len() {
        match check_table(alloc, scope, wholes, reads, number, tables[number], total) {
            Ok(judged) => {
                periods.push(judged.period)?;
                total = judged.total;
            }
            Err(trouble) => return Err(trouble),
        }
    }
    Ok(periods)
}
