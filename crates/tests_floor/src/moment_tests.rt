//! Random-looking cycles beside a slow program of the definition, and moments that are lent.

use edge_gen::*;
use std::alloc::Global;
use std::test::Fail;
use tester_types::{
    Act, Event, EventList, Look, LookList, Moment, NoMemory, Push, PushList, Table, Text, Wave,
    WaveList,
};

const DOWN: Act = Act::Push(Push::Down);

const UP: Act = Act::Push(Push::Up);

const OFF: Act = Act::Push(Push::Off);

const LOW: Act = Act::Look(Look::Low);

const HIGH: Act = Act::Look(Look::High);

const WINDOW: Act = Act::Look(Look::HighWindow);

const CLOSE: Act = Act::Look(Look::Close);

/// A wave as its signal, its character and its events.
type Plain<'a> = (u16, u8, &'a [(u64, Act)]);

/// A moment as its instant, its drives and its looks.
type Seen<'a> = (u128, &'a [(u16, Push)], &'a [(u16, Look)]);

fn table(alloc: Global, period: u64, waves: &[Plain]) -> Result<Table, NoMemory> {
    let mut list = Vec::new(alloc);
    for (signal, character, events) in waves {
        list.push(Wave {
            signal: *signal,
            character: *character,
            events: event_list(alloc, events)?,
        })?;
    }
    Ok(Table {
        name: Text::from_vec(Vec::new(alloc)),
        period,
        waves: WaveList::from_vec(list),
    })
}

fn event_list(alloc: Global, events: &[(u64, Act)]) -> Result<EventList, NoMemory> {
    let mut list = Vec::new(alloc);
    for (time, act) in events {
        list.push(Event {
            time: *time,
            act: *act,
        })?;
    }
    Ok(EventList::from_vec(list))
}

fn is_as(moments: &[Moment], expected: &[Seen]) -> bool {
    moments.len() == expected.len()
        && moments.iter().zip(expected).all(|(moment, seen)| {
            moment.at == seen.0
                && moment.drives.as_slice() == seen.1
                && moment.looks.as_slice() == seen.2
        })
}

/// `a { 01 { '0ns' D/U; } } y { LHX { '9ns/3' L/H/X; } }`
const STROBED: &[Plain<'static>] = &[
    (0, b'0', &[(0, DOWN)]),
    (0, b'1', &[(0, UP)]),
    (1, b'L', &[(3_000_000, LOW)]),
    (1, b'H', &[(3_000_000, HIGH)]),
    (1, b'X', &[(3_000_000, CLOSE)]),
];

/// What the signals of a row do at one time, by the definition: `None` where they do nothing.
fn slow_moment(
    alloc: Global,
    table: &Table,
    row: &[u8],
    start: u64,
    time: u64,
) -> Result<Option<Moment>, NoMemory> {
    let mut drives = Vec::new(alloc);
    let mut looks = Vec::new(alloc);
    for (signal, character) in row.iter().enumerate() {
        if let Some(wave) = slow_wave(table, signal, *character) {
            slow_signal(wave, time, &mut drives, &mut looks)?;
        }
    }
    if drives.is_empty() && looks.is_empty() {
        return Ok(None);
    }
    Ok(Some(Moment {
        at: u128::from(start) + u128::from(time),
        drives: PushList::from_vec(drives),
        looks: LookList::from_vec(looks),
    }))
}

/// The last wave that the table lists for a signal and a character.
fn slow_wave(table: &Table, signal: usize, character: u8) -> Option<&Wave> {
    let mut found = None;
    for wave in table.waves.as_slice() {
        if usize::from(wave.signal) == signal && wave.character == character && character != 0 {
            found = Some(wave);
        }
    }
    found
}

/// Appends a signal's last drive at a time and all its looks then.
fn slow_signal(
    wave: &Wave,
    time: u64,
    drives: &mut Vec<(u16, Push)>,
    looks: &mut Vec<(u16, Look)>,
) -> Result<(), NoMemory> {
    let mut last = None;
    for event in wave.events.as_slice() {
        if event.time == time {
            match event.act {
                Act::Push(push) => last = Some(push),
                Act::Look(look) => looks.push((wave.signal, look))?,
            }
        }
    }
    if let Some(push) = last {
        drives.push((wave.signal, push))?;
    }
    Ok(())
}

/// Whether the schedule has a moment exactly at the times at which the slow program has one, and that one.
fn agrees(alloc: Global, waves: &[Plain], row: &[u8], start: u64) -> Result<bool, NoMemory> {
    let table = table(alloc, 20, waves)?;
    let skews = vec![in alloc; 0; row.len()]?;
    if !keep_inside(&table, &skews) {
        return Ok(false);
    }
    let moments = schedule(alloc, &table, row, u128::from(start), &skews)?;
    let mut left = moments.as_slice();
    for time in 0..table.period {
        if let Some(slow) = slow_moment(alloc, &table, row, start, time)? {
            match left.split_first() {
                Some((moment, rest)) if is_same(moment, &slow) => left = rest,
                _ => return Ok(false),
            }
        }
    }
    Ok(left.is_empty())
}

fn is_same(moment: &Moment, other: &Moment) -> bool {
    moment.at == other.at
        && moment.drives.as_slice() == other.drives.as_slice()
        && moment.looks.as_slice() == other.looks.as_slice()
}

/// Waves of four signals, with times of one wave in no order, and pairs that are listed twice.
const MIXED: &[Plain<'static>] = &[
    (
        3,
        b'a',
        &[(4, UP), (4, LOW), (0, DOWN), (19, OFF), (4, DOWN)],
    ),
    (0, b'a', &[(11, LOW), (4, OFF), (11, HIGH), (4, UP)]),
    (1, b'b', &[(7, WINDOW), (7, UP), (7, CLOSE), (4, DOWN)]),
    (2, b'a', &[]),
    (1, b'a', &[(0, UP), (0, WINDOW), (19, CLOSE), (11, DOWN)]),
    (
        0,
        b'a',
        &[(4, LOW), (7, UP), (7, DOWN), (4, HIGH), (4, OFF)],
    ),
    (2, b'b', &[(7, OFF), (4, UP), (7, DOWN), (0, LOW), (0, UP)]),
    (9, b'a', &[(4, UP)]),
    (3, 0, &[(5, UP)]),
];

#[test]
fn agrees_with_the_slow_program(rt: HostRuntime) -> Result<(), Fail> {
    assert!(rt; agrees(rt.alloc(), MIXED, b"abba", 1_000)?);
    assert!(rt; agrees(rt.alloc(), MIXED, &[b'a', 0, b'b', b'a', b'a'], 123_456)?);
    Ok(())
}

/// Whether the moments of two rows, of which the first is asked for again, are lent as they are.
fn lends(alloc: Global, first: &[Seen], other: &[Seen]) -> Result<bool, NoMemory> {
    let table = table(alloc, 100_000_000, STROBED)?;
    let skews = [1, -1];
    if !keep_inside(&table, &skews) {
        return Ok(false);
    }
    let mut held = Schedules::new(alloc, 2)?;
    if !is_as(held.of(0, 0, &table, b"0H", &skews)?.as_slice(), first) {
        return Ok(false);
    }
    if !is_as(held.of(0, 1, &table, b"1L", &skews)?.as_slice(), other) {
        return Ok(false);
    }
    Ok(is_as(held.of(0, 0, &table, b"0H", &skews)?.as_slice(), first))
}

#[test]
fn lends_the_moments_that_are_held(rt: HostRuntime) -> Result<(), Fail> {
    assert!(rt;
        lends(
            rt.alloc(),
            &[
                (1, &[(0, Push::Down)], &[]),
                (2_999_999, &[], &[(1, Look::High)]),
            ],
            &[
                (1, &[(0, Push::Up)], &[]),
                (2_999_999, &[], &[(1, Look::Low)]),
            ],
        )?
    );
    Ok(())
}
