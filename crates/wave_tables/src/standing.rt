//! Whether what a table inherits fits its period.

ghost use Rattle.std.specs.Prelude.{◌≡◌, ◌+◌, Some, true, pos, length, map, slice_get, IfOk};
ghost use Rattle.stil_ast.specs.Meaning.Tables.{own_waveforms, waveforms};
ghost use Rattle.stil_ast.specs.Faults.Found.{first_in};
ghost use Rattle.stil_ast.specs.Faults.TableFaults.{stands, late_event, inherited_fault};
ghost use Rattle.wave_tables.specs.Scope.{timed};
ghost use Rattle.wave_tables.specs.Characters.{has_characters, waves_with_characters, signals_with_characters};
ghost use Rattle.wave_tables.specs.Own.{own_for, numbered_from};
ghost use Rattle.wave_tables.specs.ReadWaves.{read_wave, read_waves};
ghost use Rattle.wave_tables.specs.Standing.{is_source, counts_for, counts_in, waveform_at, MapsTable, StandAt};
ghost use Rattle.wave_tables.specs.Check.{IsAt, PassesAt, FindsAt, late_one, late_in};

use crate::check::check_late;
use crate::scope::Scope;
use crate::source::{Source, source_for};
use crate::times::ReadWave;
use crate::trouble::Trouble;
use std::alloc::{AllocError, Global};
use stil_ast::{SigRef, SignalWaves, TableDecl, WaveDecl};
use tester_types::Items;

/// A table that may inherit: its number, its period, and which waveform counts for each signal and character.
#[derive(Drop)]
pub(crate) struct Heir<'a> {
    pub number: usize,
    pub period: u64,
    pub slots: &'a [Option<Source>],
}

/// Whether it is this source.
fn is_source(source: Source, found: Option<Source>) -> bool
    ensures { result ≡ is_source source found }
{
    match found {
        Some(other) => other.table == source.table && other.number == source.number,
        None => false,
    }
}

/// Whether a source counts for one of these characters of a signal.
fn counts_for(slots: &[Option<Source>], source: Source, signal: u16, characters: &[u8]) -> bool
    ensures { result ≡ counts_for slots.now source signal characters.now }
{
    characters.iter().any(|character| is_source(source, source_for(slots, signal, *character)))
}

/// Whether it counts for one of these signals and characters.
fn counts_in(slots: &[Option<Source>], source: Source, signals: &[u16], characters: &[u8]) -> bool
    ensures { result ≡ counts_in slots.now source signals.now characters.now }
{
    signals
        .iter()
        .any(|signal| counts_for(slots, source, *signal, characters))
}

/// Whether a waveform behind a reference still stands in a table.
fn is_standing(
    alloc: Global,
    scope: &Scope,
    heir: &Heir,
    source: Source,
    reference: &SigRef,
    wave: &WaveDecl,
) -> Result<bool, AllocError>
    requires maps { MapsTable (timed scope.now) heir.now.number heir.now.slots.now }
    requires characters { has_characters wave.now.characters ≡ true }
    ensures { IfOk result (λ b. b ≡ stands (waveforms (timed scope.now).names (timed scope.now).tables heir.now.number)
        (waveform_at (timed scope.now).names source reference.now wave.now)) }
{
    let members = scope.members(alloc, reference)?;
    Ok(counts_in(
        heir.slots,
        source,
        members.as_slice(),
        wave.characters.as_slice(),
    ))
}

/// Refuses a waveform of another table that is late, if it still stands.
fn refuse_standing(
    alloc: Global,
    scope: &Scope,
    heir: &Heir,
    source: Source,
    reference: &SigRef,
    wave: &WaveDecl,
    late: Trouble,
) -> Result<(), Trouble>
    requires maps { MapsTable (timed scope.now) heir.now.number heir.now.slots.now }
    requires characters { has_characters wave.now.characters ≡ true }
    requires other { source.table ≡ heir.now.number → ⊥ }
    requires late { IsAt (timed scope.now).place
        (first_in (late_event (timed scope.now) (pos heir.now.period)) wave.now.events) late }
    ensures { PassesAt (timed scope.now).place
        (late_one (timed scope.now) (pos heir.now.period) heir.now.number
        (waveform_at (timed scope.now).names source reference.now wave.now)) result }
{
    match is_standing(alloc, scope, heir, source, reference, wave) {
        Ok(true) => Err(late),
        Ok(false) => Ok(()),
        Err(_) => Err(Trouble::NoMemory),
    }
}

/// Refuses a waveform that is inherited, still stands, and has an event that isn't below the period.
fn check_inherited_wave(
    alloc: Global,
    scope: &Scope,
    heir: &Heir,
    source: Source,
    reference: &SigRef,
    wave: &WaveDecl,
    read: &ReadWave,
) -> Result<(), Trouble>
    requires maps { MapsTable (timed scope.now) heir.now.number heir.now.slots.now }
    requires characters { has_characters wave.now.characters ≡ true }
    requires read { read.now ≡ read_wave (timed scope.now) wave.now }
    ensures { PassesAt (timed scope.now).place
        (late_one (timed scope.now) (pos heir.now.period) heir.now.number
        (waveform_at (timed scope.now).names source reference.now wave.now)) result }
{
    if usize::from(source.table) == heir.number {
        return Ok(());
    }
    match check_late(heir.period, read.events.as_slice()) {
        Ok(()) => Ok(()),
        Err(late) => refuse_standing(alloc, scope, heir, source, reference, wave, late),
    }
}

/// The same of the waveform of this number in its table.
fn check_numbered(
    alloc: Global,
    scope: &Scope,
    heir: &Heir,
    source: Source,
    reference: &SigRef,
    wave: &WaveDecl,
    reads: &[ReadWave],
) -> Result<(), Trouble>
    requires maps { MapsTable (timed scope.now) heir.now.number heir.now.slots.now }
    requires characters { has_characters wave.now.characters ≡ true }
    requires read { slice_get reads.now source.number ≡ Some (read_wave (timed scope.now) wave.now) }
    ensures { PassesAt (timed scope.now).place
        (late_one (timed scope.now) (pos heir.now.period) heir.now.number
        (waveform_at (timed scope.now).names source reference.now wave.now)) result }
{
    match reads.get(source.number as usize) {
        Some(read) => check_inherited_wave(alloc, scope, heir, source, reference, wave, read),
        None => unreachable!(),
    }
}

/// Refuses the first such waveform behind a reference, where they are numbered from `start` on; the number behind them.
fn check_reference(
    alloc: Global,
    scope: &Scope,
    heir: &Heir,
    table: u16,
    start: u32,
    signals: &SignalWaves,
    reads: &[ReadWave],
) -> Result<u32, Trouble>
    requires maps { MapsTable (timed scope.now) heir.now.number heir.now.slots.now }
    requires characters { waves_with_characters signals.now.waves ≡ true }
    requires reads { StandAt (timed scope.now) reads.now start signals.now.waves }
    ensures { FindsAt (timed scope.now).place
        (late_in (timed scope.now) (pos heir.now.period) heir.now.number
        (numbered_from start (own_for (timed scope.now).names table signals.now)))
        (λ next. next ≡ start + length signals.now.waves) result }
{
    let mut number = start;
    for wave in signals.waves.as_slice() {
        let source = Source { table, number };
        match check_numbered(alloc, scope, heir, source, &signals.reference, wave, reads) {
            Ok(()) => {}
            Err(trouble) => return Err(trouble),
        }
        number = number.checked_add(1).ok_or(Trouble::NoMemory)?;
    }
    Ok(number)
}

/// Refuses the first such waveform of a table.
fn check_table_waves(
    alloc: Global,
    scope: &Scope,
    heir: &Heir,
    number: u16,
    table: &TableDecl,
    reads: &[ReadWave],
) -> Result<(), Trouble>
    requires maps { MapsTable (timed scope.now) heir.now.number heir.now.slots.now }
    requires characters { signals_with_characters table.now.waveforms ≡ true }
    requires reads { reads.now ≡ read_waves (timed scope.now) table.now }
    ensures { PassesAt (timed scope.now).place
        (late_in (timed scope.now) (pos heir.now.period) heir.now.number
        (own_waveforms (timed scope.now).names number table.now)) result }
{
    let mut next = 0;
    for signals in table.waveforms.as_slice() {
        match check_reference(alloc, scope, heir, number, next, signals, reads) {
            Ok(behind) => next = behind,
            Err(trouble) => return Err(trouble),
        }
    }
    Ok(())
}

/// Refuses the first such waveform of the table of this number.
fn check_other(
    alloc: Global,
    scope: &Scope,
    heir: &Heir,
    number: usize,
    table: &TableDecl,
    reads: &[Items<ReadWave>],
) -> Result<(), Trouble>
    requires maps { MapsTable (timed scope.now) heir.now.number heir.now.slots.now }
    requires characters { signals_with_characters table.now.waveforms ≡ true }
    requires reads { slice_get reads.now number ≡ Some (read_waves (timed scope.now) table.now) }
    ensures { PassesAt (timed scope.now).place
        (late_in (timed scope.now) (pos heir.now.period) heir.now.number
        (own_waveforms (timed scope.now).names number table.now)) result }
{
    let short = u16::try_from(number).map_err(|_| Trouble::NoMemory)?;
    match reads.get(number) {
        Some(own) => check_table_waves(alloc, scope, heir, short, table, own.as_slice()),
        None => unreachable!(),
    }
}

/// Refuses the first inherited event in text order that isn't below the period of a table.
pub(crate) fn check_inherited(
    alloc: Global,
    scope: &Scope,
    heir: &Heir,
    reads: &[Items<ReadWave>],
) -> Result<(), Trouble>
    requires maps { MapsTable (timed scope.now) heir.now.number heir.now.slots.now }
    requires reads { reads.now ≡ map (read_waves (timed scope.now)) (timed scope.now).tables }
    ensures { PassesAt (timed scope.now).place
        (inherited_fault (timed scope.now) (pos heir.now.period) heir.now.number) result }
{
    let tables = scope.tables();
    for number in 0..tables.len() {
        match check_other(alloc, scope, heir, number, tables[number], reads) {
            Ok(()) => {}
            Err(trouble) => return Err(trouble),
        }
    }
    Ok(())
}
