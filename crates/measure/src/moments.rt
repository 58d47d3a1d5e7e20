//! Makes the moments of a full cycle a number of times, or has them lent so often where they are held, and prints how many they
//! are, so that it can be timed. The words are a number of times, and `held` before it where they are lent.

ghost use Rattle.std.specs.Prelude.{◌≡◌, map, OnOk};
ghost use Rattle.std.specs.List.{All};
ghost use Rattle.edge_gen.specs.Signals.{FitSkews};
ghost use Rattle.edge_gen.specs.Moments.{moments_of};

use crate::words::{number, word};
use edge_gen::{HELD_SCHEDULES, Schedules, keep_inside, schedule};
use std::alloc::Global;
use std::io;
use std::io::Print;
use tester_types::{Act, Event, EventList, Look, NoMemory, Push, Table, Text, Wave, WaveList};

/// The most signals of a program.
const SIGNALS: u16 = 1024;

/// The most events of a waveform.
const EVENTS: u64 = 16;

/// Sixteen events of one signal, three picoseconds behind those of the signal before.
fn events(alloc: Global, signal: u16) -> Result<EventList, NoMemory> {
    let mut events = Vec::new(alloc);
    for step in 0..EVENTS {
        let act = if step % 2 == 0 {
            Act::Push(Push::Up)
        } else {
            Act::Look(Look::High)
        };
        let time = step * 5_000_000 + u64::from(signal) * 3_000;
        events.push(Event { time, act })?;
    }
    Ok(EventList::from_vec(events))
}

/// A table of 100 ns with one wave for each signal.
fn full_table(alloc: Global) -> Result<Table, NoMemory> {
    let mut waves = Vec::new(alloc);
    for signal in 0..SIGNALS {
        waves.push(Wave {
            signal,
            character: b'1',
            events: events(alloc, signal)?,
        })?;
    }
    Ok(Table {
        name: Text::from_vec(Vec::new(alloc)),
        period: 100_000_000,
        waves: WaveList::from_vec(waves),
    })
}

/// The number of moments of the last of so many cycles of this row.
fn moments_of(
    alloc: Global,
    table: &Table,
    row: &[u8],
    skews: &[i64],
    cycles: u32,
) -> Result<usize, NoMemory>
    requires { FitSkews table.now row.now skews.now }
{
    let mut count = 0;
    for cycle in 0..cycles {
        count = schedule(alloc, table, row, u128::from(cycle) * 100_000_000, skews)?
            .as_slice()
            .len();
    }
    Ok(count)
}

/// The number of moments that are lent for a row of this number, where all that are held are these.
#[tactic(auto, using(crate::proofs::HeldLemmas::holds_only, crate::proofs::HeldLemmas::asked_all))]
fn lent(
    held: &mut Schedules,
    number: u32,
    table: &Table,
    row: &[u8],
    skews: &[i64],
) -> Result<usize, NoMemory>
    requires skews { FitSkews table.now row.now skews.now }
    requires held { All (λ m. m ≡ moments_of table.now row.now skews.now 0) (map (λ e. e.1) held.old.entries) }
    ensures { OnOk result (All (λ m. m ≡ moments_of table.now row.now skews.now 0)
        (map (λ e. e.1) held.new.entries)) }
{
    match held.of(0, number, table, row, skews) {
        Ok(moments) => Ok(moments.as_slice().len()),
        Err(fault) => Err(fault),
    }
}

/// The number of moments that are lent at the last of so many calls, for 64 rows in turn.
fn lent_moments(
    alloc: Global,
    table: &Table,
    row: &[u8],
    skews: &[i64],
    calls: u32,
) -> Result<usize, NoMemory>
    requires { FitSkews table.now row.now skews.now }
{
    let mut held = Schedules::new(alloc, HELD_SCHEDULES)?;
    let mut count = 0;
    for call in 0..calls {
        count = lent(&mut held, call % 64, table, row, skews)?;
    }
    Ok(count)
}

/// The number of moments at the last of so many times, made or lent, and none where a skew moves an event out of its cycle.
fn fitting_moments(
    alloc: Global,
    table: &Table,
    row: &[u8],
    skews: &[i64],
    (are_held, times): (bool, u32),
) -> Result<usize, NoMemory> {
    if skews.len() != row.len() || !keep_inside(table, skews) {
        return Ok(0);
    }
    if are_held {
        return lent_moments(alloc, table, row, skews, times);
    }
    moments_of(alloc, table, row, skews, times)
}

/// The number of moments of a full cycle, at the last of so many times.
fn moments(alloc: Global, times: (bool, u32)) -> Result<usize, NoMemory> {
    let table = full_table(alloc)?;
    let row = [b'1'; 1024];
    let skews = [0; 1024];
    fitting_moments(alloc, &table, &row, &skews, times)
}

/// Measures the moments of a full cycle by the words behind `moments`.
pub fn run<R: Print + AllocGlobal>(rt: &R, words: &[String]) -> io::Result<()> {
    let are_held = word(words, 0) == "held";
    let times = number(words, usize::from(are_held));
    match moments(rt.alloc(), (are_held, times)) {
        Ok(count) => println!(rt; "{count} moments"),
        Err(NoMemory) => println!(rt; "no memory"),
    }
}
