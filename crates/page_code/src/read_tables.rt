//! Reading the signals and the tables of a saved program.

ghost use Rattle.std.specs.Prelude.{◌≡◌, ◌+◌, ◌*◌, ◌^◌, ◌<◌, ◌≤◌, ◌&&◌, true, [], not, nat_le, nat_lt, length};
ghost use Rattle.std.specs.List.{list_all, list_any};
ghost use Rattle.std.specs.Option.{option_map_or};
ghost use Rattle.std.specs.Int.{w16, w32, w64};
ghost use Rattle.text_bytes.specs.Limits.{longest_period};
ghost use Rattle.tester_types.specs.Acts.{act_of};
ghost use Rattle.tester_types.specs.Directions.{direction_of};
ghost use Rattle.packed_code.specs.Conditions.{last_of, is_named, latest, is_behind, wave_count};
ghost use Rattle.page_code.specs.Fields.{Gives, byte_at, number_at, known, checked, items_at};
ghost use Rattle.page_code.specs.Reading.{text_at, signal_at, event_at, pair_at, may_stand, wave_at, table_with, table_at};

use crate::fault::ReadError;
use crate::read_fields::{
    bad, byte, byte_to, character, name, number16_below, number32, number64, raw_text,
};
use packed_code::{CodeSignal, CodeSignalList};
use std::alloc::Global;
use tester_types::{
    Act, Direction, Event, EventList, Table, TableList, Text, Wave, WaveList, act_of_byte,
    direction_of_byte,
};
use text_bytes::{LONGEST_PERIOD, MOST_WAVES, all_printable};

/// A direction.
fn direction(bytes: &[u8]) -> Result<(Direction, &[u8]), ReadError>
    ensures { Gives (λ x. (x.0, x.1.now)) result (known byte_at direction_of bytes.now) }
{
    let (number, rest) = byte(bytes)?;
    match direction_of_byte(number) {
        None => Err(bad(bytes)),
        Some(direction) => Ok((direction, rest)),
    }
}

/// An act.
fn act(bytes: &[u8]) -> Result<(Act, &[u8]), ReadError>
    ensures { Gives (λ x. (x.0, x.1.now)) result (known byte_at act_of bytes.now) }
{
    let (number, rest) = byte(bytes)?;
    match act_of_byte(number) {
        None => Err(bad(bytes)),
        Some(act) => Ok((act, rest)),
    }
}

/// Whether a signal has this name.
fn is_taken(name: &[u8], signals: &[CodeSignal]) -> bool
    ensures { result ≡ list_any (is_named name.now) signals.now }
{
    signals.iter().any(|signal| name == signal.name.as_slice())
}

/// A name that no signal before has.
#[tactic(auto, unfolding(crate::specs::Reading::text_at))]
fn fresh_name<'a>(
    alloc: Global,
    before: &[CodeSignal],
    bytes: &'a [u8],
) -> Result<(Text, &'a [u8]), ReadError>
    ensures { Gives (λ x. (x.0, x.1.now)) result
        (text_at (λ text. nat_lt 0 (length text) && not (list_any (is_named text) before.now)) bytes.now) }
{
    let (raw, rest) = raw_text(bytes)?;
    if !all_printable(raw) || raw.is_empty() || is_taken(raw, before) {
        return Err(bad(bytes));
    }
    Ok((Text::from_slice(alloc, raw)?, rest))
}

/// A signal behind those before it.
#[tactic(auto, unfolding(crate::specs::Reading::signal_at))]
fn signal<'a>(
    alloc: Global,
    before: &[CodeSignal],
    bytes: &'a [u8],
) -> Result<(CodeSignal, &'a [u8]), ReadError>
    ensures { Gives (λ x. (x.0, x.1.now)) result (signal_at before.now bytes.now) }
{
    let (direction, rest) = direction(bytes)?;
    let (name, rest) = fresh_name(alloc, before, rest)?;
    Ok((CodeSignal { name, direction }, rest))
}

/// So many signals.
pub(crate) fn signals(
    alloc: Global,
    count: u16,
    bytes: &[u8],
) -> Result<(CodeSignalList, &[u8]), ReadError>
    ensures { Gives (λ x. (x.0, x.1.now)) result (items_at signal_at count [] bytes.now) }
{
    let mut signals = Vec::new(alloc);
    let mut rest = bytes;
    for _ in 0..count {
        let (signal, after) = signal(alloc, &signals, rest)?;
        signals.push(signal)?;
        rest = after;
    }
    Ok((CodeSignalList::from_vec(signals), rest))
}

/// The time of the last event, 0 where there is none.
fn latest_time(events: &[Event]) -> u64
    ensures { result ≡ latest events.now }
{
    match events.last() {
        None => 0,
        Some(event) => event.time,
    }
}

/// An event behind those before it.
#[tactic(auto, unfolding(crate::specs::Reading::event_at))]
fn event<'a>(period: u64, before: &[Event], bytes: &'a [u8]) -> Result<(Event, &'a [u8]), ReadError>
    ensures { Gives (λ x. (x.0, x.1.now)) result (event_at period before.now bytes.now) }
{
    let (time, rest) = number64(bytes)?;
    if time < latest_time(before) || time >= period {
        return Err(bad(bytes));
    }
    let (act, rest) = act(rest)?;
    Ok((Event { time, act }, rest))
}

/// So many events.
fn events(
    alloc: Global,
    period: u64,
    count: u8,
    bytes: &[u8],
) -> Result<(EventList, &[u8]), ReadError>
    ensures { Gives (λ x. (x.0, x.1.now)) result (items_at (event_at period) count [] bytes.now) }
{
    let mut events = Vec::new(alloc);
    let mut rest = bytes;
    for _ in 0..count {
        let (event, after) = event(period, &events, rest)?;
        events.push(event)?;
        rest = after;
    }
    Ok((EventList::from_vec(events), rest))
}

/// A signal and a character.
#[tactic(auto, unfolding(crate::specs::Reading::pair_at))]
fn pair(signals: usize, bytes: &[u8]) -> Result<(u16, u8, &[u8]), ReadError>
    ensures { Gives (λ x. ((x.0, x.1), x.2.now)) result (pair_at signals bytes.now) }
{
    let (signal, rest) = number16_below(signals, bytes)?;
    let (character, rest) = character(rest)?;
    Ok((signal, character, rest))
}

/// Whether a signal and a character stand behind those of the last wave.
fn stands_behind(before: &[Wave], signal: u16, character: u8) -> bool
    ensures { result ≡ option_map_or (is_behind signal character) (last_of before.now) true }
{
    match before.last() {
        None => true,
        Some(wave) => wave.signal < signal || (wave.signal == signal && wave.character < character),
    }
}

/// A wave behind those before it, as one of at most so many.
#[tactic(auto, unfolding(crate::specs::Reading::wave_at))]
fn wave<'a>(
    alloc: Global,
    signals: usize,
    period: u64,
    most: usize,
    before: &[Wave],
    bytes: &'a [u8],
) -> Result<(Wave, &'a [u8]), ReadError>
    ensures { Gives (λ x. (x.0, x.1.now)) result (wave_at signals period most before.now bytes.now) }
{
    let (signal, character, rest) = pair(signals, bytes)?;
    if !stands_behind(before, signal, character) || before.len() >= most {
        return Err(bad(bytes));
    }
    let (count, rest) = byte_to(16, rest)?;
    let (events, rest) = events(alloc, period, count, rest)?;
    let wave = Wave {
        signal,
        character,
        events,
    };
    Ok((wave, rest))
}

/// So many waves.
fn waves(
    alloc: Global,
    signals: usize,
    period: u64,
    most: usize,
    count: u32,
    bytes: &[u8],
) -> Result<(WaveList, &[u8]), ReadError>
    ensures { Gives (λ x. (x.0, x.1.now)) result (items_at (wave_at signals period most) count [] bytes.now) }
{
    let mut waves = Vec::new(alloc);
    let mut rest = bytes;
    for _ in 0..count {
        let (wave, after) = wave(alloc, signals, period, most, &waves, rest)?;
        waves.push(wave)?;
        rest = after;
    }
    Ok((WaveList::from_vec(waves), rest))
}

/// A period, 1 to 10^12 femtoseconds.
fn period(bytes: &[u8]) -> Result<(u64, &[u8]), ReadError>
    ensures { Gives (λ x. (x.0, x.1.now)) result
        (checked (number_at w64) (λ n. nat_lt 0 n && nat_le n longest_period) bytes.now) }
{
    let (number, rest) = number64(bytes)?;
    if number == 0 || number > LONGEST_PERIOD {
        return Err(bad(bytes));
    }
    Ok((number, rest))
}

/// A table, which may have at most so many waves.
#[tactic(auto, unfolding(crate::specs::Reading::table_with))]
fn table(
    alloc: Global,
    signals: usize,
    most: usize,
    bytes: &[u8],
) -> Result<(Table, &[u8]), ReadError>
    ensures { Gives (λ x. (x.0, x.1.now)) result (table_with signals most bytes.now) }
{
    let (name, rest) = name(alloc, bytes)?;
    let (period, rest) = period(rest)?;
    let (count, rest) = number32(rest)?;
    let (waves, rest) = waves(alloc, signals, period, most, count, rest)?;
    let table = Table {
        name,
        period,
        waves,
    };
    Ok((table, rest))
}

/// So many tables.
pub(crate) fn tables(
    alloc: Global,
    signals: usize,
    count: u16,
    bytes: &[u8],
) -> Result<(TableList, &[u8]), ReadError>
    ensures { Gives (λ x. (x.0, x.1.now)) result (items_at (table_at signals) count [] bytes.now) }
{
    let mut tables = Vec::new(alloc);
    let mut room = MOST_WAVES;
    let mut rest = bytes;
    for _ in 0..count {
        let (table, after) = table(alloc, signals, room, rest)?;
        room = room.saturating_sub(table.waves.len());
        tables.push(table)?;
        rest = after;
    }
    Ok((TableList::from_vec(tables), rest))
}
