//! The faults of a table, in their order.

ghost use Rattle.std.specs.Prelude.{◌≡◌, ◌∷◌, ℤ, pos, List, Option, None, Some, map, flat_map, if◌then◌else◌};
ghost use Rattle.stil_ast.specs.Faults.Found.{first_in, fault_at, on_line};
ghost use Rattle.stil_ast.specs.Faults.TableFaults.{Timed, inherit_fault, line_of, signal_fault};
ghost use Rattle.stil_ast.specs.Data.Places.{Place};
ghost use Rattle.stil_ast.specs.declared.fault.StilFault.{StilFault};
ghost use Rattle.stil_ast.specs.declared.fault.StilKind.TheVariants.{EventOutside};
ghost use Rattle.stil_ast.specs.declared.name.Quoted.{Quoted};
ghost use Rattle.expr_text.specs.Ratio.{Ratio};
ghost use Rattle.wave_tables.specs.Scope.{timed};
ghost use Rattle.wave_tables.specs.Lineage.{AreWhole, IsPeriod, is_there};
ghost use Rattle.wave_tables.specs.ReadWaves.{read_wave};
ghost use Rattle.wave_tables.specs.declared.times.ReadEvent.{ReadEvent};
ghost use Rattle.wave_tables.specs.Check.{PassesAt, GoesOnAt, GivesPeriod, events_read, read_fault, reference_fault, late_read};

use crate::lineage::{Whole, table_of};
use crate::scope::Scope;
use crate::times::{ReadEvent, ReadTime, ReadWave};
use crate::trouble::{Trouble, fault};
use std::alloc::Global;
use stil_ast::{Named, SigRef, SignalWaves, StilKind};
use text_bytes::LONGEST_PERIOD;

/// Whether a table is there.
fn is_there(wholes: &[Option<Whole>], table: usize) -> bool
    ensures { result ≡ is_there wholes.now table }
{
    wholes.get(table).is_some_and(|whole| whole.is_some())
}

/// Refuses the name of an unknown table, and of one that leads into a cycle.
fn check_inherit(scope: &Scope, wholes: &[Option<Whole>], named: &Named) -> Result<(), Trouble>
    requires { AreWhole (timed scope.now) wholes.now }
    ensures { PassesAt (timed scope.now).place
        (inherit_fault (timed scope.now).place (timed scope.now).tables named.now) result }
{
    match table_of(scope.tables(), named.name.as_slice()) {
        None => Err(fault(StilKind::UnknownName, named.line)),
        Some(table) => {
            if is_there(wholes, table) {
                Ok(())
            } else {
                Err(fault(StilKind::Cyclic, named.line))
            }
        }
    }
}

/// The period of a table, which is to be there, a whole number from 1 to 10^12.
pub(crate) fn check_period(period: Option<ReadTime>, line: u32) -> Result<u64, Trouble>
    ensures { (t : Timed Ratio) (text : Option Quoted) (rest : ℤ → Option StilFault) → IsPeriod t text period
        → GivesPeriod t line text rest result }
{
    match period {
        None => Err(fault(StilKind::NoPeriod, line)),
        Some(read) => match read.time {
            Err(kind) => Err(fault(kind, read.line)),
            Ok(time) => {
                if 1 <= time && time <= LONGEST_PERIOD as i128 {
                    Ok(time as u64)
                } else {
                    Err(fault(StilKind::OutOfRange, read.line))
                }
            }
        },
    }
}

/// Refuses the first name of an unknown table, or of one that leads into a cycle.
pub(crate) fn check_inherits(
    scope: &Scope,
    wholes: &[Option<Whole>],
    inherits: &[Named],
) -> Result<(), Trouble>
    requires { AreWhole (timed scope.now) wholes.now }
    ensures { PassesAt (timed scope.now).place
        (first_in (inherit_fault (timed scope.now).place (timed scope.now).tables) inherits.now) result }
{
    for named in inherits {
        match check_inherit(scope, wholes, named) {
            Ok(()) => {}
            Err(trouble) => return Err(trouble),
        }
    }
    Ok(())
}

/// Judges an event behind one at `before`; its time.
fn check_event(period: u64, before: u64, event: &ReadEvent) -> Result<u64, Trouble>
    ensures { (place : Place) (rest : List ReadEvent)
        → GoesOnAt place (events_read place (pos period) (pos before) (event.now ∷ rest))
        (λ time. events_read place (pos period) (pos time) rest) result }
{
    let line = event.time.line;
    match event.time.time {
        Err(kind) => Err(fault(kind, line)),
        Ok(time) => {
            if time < 0 || time >= i128::from(period) {
                Err(fault(StilKind::EventOutside, line))
            } else if time < i128::from(before) {
                Err(fault(StilKind::EventOrder, line))
            } else {
                Ok(time as u64)
            }
        }
    }
}

/// Judges the events of a waveform.
fn check_events(period: u64, events: &[ReadEvent]) -> Result<(), Trouble>
    ensures { (place : Place) → PassesAt place (events_read place (pos period) (pos 0) events.now) result }
{
    let mut before = 0;
    for event in events {
        match check_event(period, before, event) {
            Ok(time) => before = time,
            Err(trouble) => return Err(trouble),
        }
    }
    Ok(())
}

/// Judges the waveforms behind a reference.
fn check_waves(period: u64, waves: &[ReadWave]) -> Result<(), Trouble>
    ensures { (place : Place) → PassesAt place (first_in (read_fault place (pos period)) waves.now) result }
{
    for wave in waves {
        match check_events(period, wave.events.as_slice()) {
            Ok(()) => {}
            Err(trouble) => return Err(trouble),
        }
    }
    Ok(())
}

/// The line of a reference: its own only where it is a text.
fn line_of(signals: &SignalWaves) -> u32
    ensures { result ≡ line_of signals.now.reference signals.now.line }
{
    match &signals.reference {
        SigRef::Name(_name) => signals.line,
        SigRef::Group(text) => text.line,
    }
}

/// Judges a reference in Waveforms.
fn check_reference(alloc: Global, scope: &Scope, signals: &SignalWaves) -> Result<(), Trouble>
    ensures { PassesAt (timed scope.now).place (reference_fault (timed scope.now) signals.now) result }
{
    match scope.kind(alloc, &signals.reference) {
        Ok(None) => Ok(()),
        Ok(Some(kind)) => Err(fault(kind, line_of(signals))),
        Err(_) => Err(Trouble::NoMemory),
    }
}

/// Judges a reference in Waveforms, and then the waveforms behind it.
fn check_signal(
    alloc: Global,
    scope: &Scope,
    period: u64,
    signals: &SignalWaves,
    reads: &[ReadWave],
) -> Result<(), Trouble>
    requires { reads.now ≡ map (read_wave (timed scope.now)) signals.now.waves }
    ensures { PassesAt (timed scope.now).place (signal_fault (timed scope.now) (pos period) signals.now) result }
{
    match check_reference(alloc, scope, signals) {
        Ok(()) => check_waves(period, reads),
        Err(trouble) => Err(trouble),
    }
}

/// Judges a table's own waveforms in text order.
pub(crate) fn check_signals(
    alloc: Global,
    scope: &Scope,
    period: u64,
    list: &[SignalWaves],
    reads: &[ReadWave],
) -> Result<(), Trouble>
    requires { reads.now ≡ flat_map (λ s. map (read_wave (timed scope.now)) s.waves) list.now }
    ensures { PassesAt (timed scope.now).place
        (first_in (signal_fault (timed scope.now) (pos period)) list.now) result }
{
    let mut left = reads;
    for signals in list {
        let (own, rest) = left.split_at(signals.waves.len());
        match check_signal(alloc, scope, period, signals, own) {
            Ok(()) => left = rest,
            Err(trouble) => return Err(trouble),
        }
    }
    Ok(())
}

/// Refuses the first event of an inherited waveform that isn't below the period. A time with a fault is left to its own
/// table.
pub(crate) fn check_late(period: u64, events: &[ReadEvent]) -> Result<(), Trouble>
    ensures { (place : Place) → PassesAt place (first_in (late_read place (pos period)) events.now) result }
{
    for event in events {
        if is_late(period, event) {
            return Err(fault(StilKind::EventOutside, event.time.line));
        }
    }
    Ok(())
}

/// Whether an event isn't below the period.
fn is_late(period: u64, event: &ReadEvent) -> bool
    ensures late { (place : Place) → late_read place (pos period) event.now
        ≡ (if result then Some (fault_at (on_line place event.now.time.line) EventOutside) else None) }
{
    match event.time.time {
        Ok(time) => time >= i128::from(period),
        Err(_kind) => false,
    }
}
