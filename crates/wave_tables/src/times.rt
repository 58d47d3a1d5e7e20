//! The texts of waveforms with their times.

ghost use Rattle.std.specs.Prelude.{◌≡◌, ◌++◌, map, flat_map, IfOk, OnOk};
ghost use Rattle.text_bytes.specs.Texts.{behind};
ghost use Rattle.wave_tables.specs.Scope.{timed};
ghost use Rattle.wave_tables.specs.ReadWaves.{read_event, read_wave, read_waves};

use crate::scope::Scope;
use std::alloc::{AllocError, Global};
use stil_ast::{EventDecl, StilKind, TableDecl, WaveDecl};
use tester_types::{Act, Items, Text};

/// The time in a text, or the kind of its fault; and the text's line.
#[derive(Clone, Copy, Debug, PartialEq, Eq)]
pub(crate) struct ReadTime {
    pub time: Result<i128, StilKind>,
    pub line: u32,
}

/// An event with its time.
#[derive(Drop)]
pub(crate) struct ReadEvent {
    pub time: ReadTime,
    pub acts: Items<Act>,
}

/// A waveform with the times of its events.
#[derive(Drop)]
pub(crate) struct ReadWave {
    pub characters: Text,
    pub events: Items<ReadEvent>,
}

/// Events with their times.
fn read_events(
    alloc: Global,
    scope: &Scope,
    events: &[EventDecl],
) -> Result<Items<ReadEvent>, AllocError>
    ensures { IfOk result (λ list. list ≡ map (read_event (timed scope.now)) events.now) }
{
    let mut read = Vec::with_capacity(alloc, events.len())?;
    for event in events {
        let time = scope.time(alloc, &event.time)?;
        let acts = Items::from_slice(alloc, event.acts.as_slice())?;
        read.push(ReadEvent { time, acts })?;
    }
    Ok(Items::from_vec(read))
}

/// Appends waveforms with the times of their events.
fn append_waves(
    alloc: Global,
    scope: &Scope,
    read: &mut Vec<ReadWave>,
    waves: &[WaveDecl],
) -> Result<(), AllocError>
    ensures { OnOk result (read.new.items ≡ read.old.items ++ map (read_wave (timed scope.now)) waves.now) }
{
    for wave in waves {
        let events = read_events(alloc, scope, wave.events.as_slice())?;
        let characters = Text::from_slice(alloc, wave.characters.as_slice())?;
        read.push(ReadWave { characters, events })?;
    }
    Ok(())
}

/// A table's own waveforms in text order.
fn read_waves(
    alloc: Global,
    scope: &Scope,
    table: &TableDecl,
) -> Result<Items<ReadWave>, AllocError>
    ensures { IfOk result (λ list. list ≡ read_waves (timed scope.now) table.now) }
{
    let mut read = Vec::new(alloc);
    for signals in table.waveforms.as_slice() {
        append_waves(alloc, scope, &mut read, signals.waves.as_slice())?;
    }
    Ok(Items::from_vec(read))
}

/// The own waveforms of each of these tables.
pub(crate) fn read_tables(
    alloc: Global,
    scope: &Scope,
    tables: &[&TableDecl],
) -> Result<Vec<Items<ReadWave>>, AllocError>
    ensures { IfOk result (λ list. list.items ≡ map (read_waves (timed scope.now)) (behind tables.now)) }
{
    let mut read = Vec::new(alloc);
    for table in tables {
        read.push(read_waves(alloc, scope, table)?)?;
    }
    Ok(read)
}
