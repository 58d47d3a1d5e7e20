//! The waves of a table.

ghost use Rattle.std.specs.Prelude.{◌≡◌, ◌==◌, ◌++◌, filter_map, IfOk, OnOk};
ghost use Rattle.std.specs.List.{position_or_len};
ghost use Rattle.std.specs.Option.{option_map, option_to_list};
ghost use Rattle.stil_ast.specs.Meaning.Tables.{act_of};
ghost use Rattle.wave_tables.specs.Made.{event_read, read_at, wave_read};

use crate::source::Source;
use crate::times::{ReadEvent, ReadWave};
use std::alloc::{AllocError, Global};
use tester_types::{Act, Event, EventList, Items, Wave};
use text_bytes::LONGEST_PERIOD;

/// The act of an event for a character: one act is for all characters, else there is one for each.
fn act_of(characters: &[u8], character: u8, acts: &[Act]) -> Option<Act>
    ensures { result ≡ act_of characters.now character acts.now }
{
    match acts {
        [] => None,
        [act] => Some(*act),
        [_, _, ..] => acts.get(place_of(characters, character)).copied(),
    }
}

/// The place of a character, or how many there are.
fn place_of(characters: &[u8], character: u8) -> usize
    ensures { result ≡ position_or_len (λ c. c == character) characters.now }
{
    characters.iter().take_while(|c| **c != character).count()
}

/// An event for a character. Its time was judged before: one that is none of a cycle is answered as want of memory.
fn event_for(
    characters: &[u8],
    character: u8,
    event: &ReadEvent,
) -> Result<Option<Event>, AllocError>
    ensures { IfOk result (λ found. found ≡ event_read characters.now character event.now) }
{
    match (
        event.time.time,
        act_of(characters, character, event.acts.as_slice()),
    ) {
        (Ok(time), Some(act)) => {
            if 0 <= time && time <= LONGEST_PERIOD as i128 {
                Ok(Some(Event {
                    time: time as u64,
                    act,
                }))
            } else {
                Err(AllocError)
            }
        }
        (Ok(_time), None) => Ok(None),
        (Err(_kind), _act) => Ok(None),
    }
}

/// Appends an event that is there.
fn push_found(list: &mut Vec<Event>, found: Option<Event>) -> Result<(), AllocError>
    ensures { OnOk result (list.new.items ≡ list.old.items ++ option_to_list found) }
{
    if let Some(event) = found {
        list.push(event)?;
    }
    Ok(())
}

/// The events of a waveform for one of its characters, in written order.
fn events_for(alloc: Global, character: u8, wave: &ReadWave) -> Result<EventList, AllocError>
    ensures { IfOk result (λ list. list ≡ filter_map (event_read wave.now.characters character) wave.now.events) }
{
    let mut list = Vec::with_capacity(alloc, wave.events.len())?;
    for event in wave.events.as_slice() {
        push_found(
            &mut list,
            event_for(wave.characters.as_slice(), character, event)?,
        )?;
    }
    Ok(EventList::from_vec(list))
}

/// The waveform that a source names, where there is one.
fn read_at(reads: &[Items<ReadWave>], source: Source) -> Option<&ReadWave>
    ensures { option_map (λ w. w.now) result ≡ read_at reads.now source }
{
    match reads.get(usize::from(source.table)) {
        Some(table) => table.as_slice().get(source.number as usize),
        None => None,
    }
}

/// Appends the wave of a signal and a character, if a waveform counts for them.
pub(crate) fn push_wave(
    alloc: Global,
    waves: &mut Vec<Wave>,
    reads: &[Items<ReadWave>],
    signal: u16,
    character: u8,
    source: Option<Source>,
) -> Result<(), AllocError>
    ensures { OnOk result (waves.new.items ≡ waves.old.items
        ++ option_to_list (wave_read reads.now signal character source)) }
{
    if let Some(place) = source {
        if let Some(read) = read_at(reads, place) {
            let events = events_for(alloc, character, read)?;
            waves.push(Wave {
                signal,
                character,
                events,
            })?;
        }
    }
    Ok(())
}
