//! The cycles of all executives of a code, each in one of two forms.

ghost use Rattle.std.specs.Prelude.{◌≡◌, ◌+◌, ◌<◌, ◌≤◌, ◌^◌, IfOk, length};
ghost use Rattle.std.specs.List.{flat_map};
ghost use Rattle.text_bytes.specs.Limits.{most_listed};
ghost use Rattle.tester_types.specs.Outside.{Prints};
ghost use Rattle.packed_code.specs.Walk.{IsOf};
ghost use Rattle.code_listing.specs.Listing.{listed, listed_exec, listing_of, cycles_in, time_of};
ghost use Rattle.code_listing.specs.Lines.{Lists, ListsWhole, IsFor};
ghost use Rattle.code_listing.specs.Room.{Fits, IsSure, text_of};
ghost use Rattle.code_listing.specs.Text.{names_of, exec_line, exec_text, execs_text, end_line, listing_text};
ghost use Rattle.code_listing.specs.Text.{cycles_text, events_text};

use crate::check::cycle_total;
use crate::cycles::put_cycle_line;
use crate::fault::ListFault;
use crate::moments::put_moments;
use crate::room::Room;
use packed_code::{Code, walk};
use std::alloc::Global;
use tester_types::{Cycle, Piece, Sink, SinkFault, put_each};

/// What is printed of a cycle.
#[derive(Clone, Copy, Debug, PartialEq, Eq)]
pub(crate) enum Form {
    /// Its line.
    Cycles,
    /// Its moments.
    Events,
}

/// Puts a numbered cycle.
fn put_cycle<K: Sink>(
    alloc: Global,
    sink: &mut K,
    code: &Code,
    form: Form,
    number: u64,
    cycle: &Cycle,
    room: &mut Room,
) -> Result<(), ListFault>
    requires of { IsOf code.now cycle.now.table cycle.now.row }
    requires early { cycle.now.start < 2 ^ 88 }
    requires room { Fits (length code.now.signals) room.old }
    ensures lists { Lists (K.told sink.old) (text_of form code.now (listed code.now (number, cycle.now))) result
        (K.told sink.new) }
    ensures sure { IsSure form result }
    ensures room { Fits (length code.now.signals) room.new }
    ensures count { K.faults sink.old ≤ K.faults sink.new }
    ensures cause { IsFor (K.faults sink.old) (K.faults sink.new) result }
{
    match form {
        Form::Cycles => put_cycle_line(sink, code, number, cycle, room.row.as_mut_slice())?,
        Form::Events => put_moments(alloc, sink, code, number, cycle, room.skews.as_slice())?,
    }
    Ok(())
}

/// Puts the cycles of an executive, and adds their periods to a time.
fn put_exec_cycles<K: Sink>(
    alloc: Global,
    sink: &mut K,
    code: &Code,
    form: Form,
    exec: u16,
    room: &mut Room,
    time: u128,
) -> Result<u128, ListFault>
    requires exec { exec < length code.now.execs }
    requires room { Fits (length code.now.signals) room.old }
    requires time { time + time_of (listed_exec code.now exec).cycles < 2 ^ 128 }
    ensures lists { Lists (K.told sink.old) (flat_map (text_of form code.now) (listed_exec code.now exec).cycles) result
        (K.told sink.new) }
    ensures time { IfOk result (λ t. t ≡ time + time_of (listed_exec code.now exec).cycles) }
    ensures sure { IsSure form result }
    ensures room { Fits (length code.now.signals) room.new }
    ensures count { K.faults sink.old ≤ K.faults sink.new }
    ensures cause { IsFor (K.faults sink.old) (K.faults sink.new) result }
{
    let mut place = walk(code, exec);
    let mut time = time;
    for number in 0..code.cycles(exec) {
        let Some(cycle) = place.next(code) else {
            unreachable!()
        };
        put_cycle(alloc, sink, code, form, number, &cycle, room)?;
        time += u128::from(code.table(cycle.table).period);
    }
    Ok(time)
}

/// Puts the line of an executive.
fn put_exec_line<K: Sink>(sink: &mut K, code: &Code, exec: u16) -> Result<(), SinkFault>
    requires { exec < length code.now.execs }
    ensures { Prints (K.told sink.old) (K.faults sink.old) (exec_line (listed_exec code.now exec)) result
        (K.told sink.new) (K.faults sink.new) }
{
    let line = [
        Piece::Text(b"exec "),
        Piece::Number(u128::from(exec)),
        Piece::Text(b" "),
        Piece::Title(code.exec_name(exec)),
        Piece::Text(b"\n"),
    ];
    put_each(sink, &line)
}

/// Puts an executive with its cycles, and adds their periods to a time.
fn put_exec<K: Sink>(
    alloc: Global,
    sink: &mut K,
    code: &Code,
    form: Form,
    exec: u16,
    room: &mut Room,
    time: u128,
) -> Result<u128, ListFault>
    requires exec { exec < length code.now.execs }
    requires room { Fits (length code.now.signals) room.old }
    requires time { time + time_of (listed_exec code.now exec).cycles < 2 ^ 128 }
    ensures lists { Lists (K.told sink.old) (exec_text (text_of form code.now) (listed_exec code.now exec)) result
        (K.told sink.new) }
    ensures time { IfOk result (λ t. t ≡ time + time_of (listed_exec code.now exec).cycles) }
    ensures sure { IsSure form result }
    ensures room { Fits (length code.now.signals) room.new }
    ensures count { K.faults sink.old ≤ K.faults sink.new }
    ensures cause { IsFor (K.faults sink.old) (K.faults sink.new) result }
{
    put_exec_line(sink, code, exec)?;
    put_exec_cycles(alloc, sink, code, form, exec, room, time)
}

/// Puts all executives, and answers how long their cycles take.
fn put_execs<K: Sink>(
    alloc: Global,
    sink: &mut K,
    code: &Code,
    form: Form,
    room: &mut Room,
) -> Result<u128, ListFault>
    requires room { Fits (length code.now.signals) room.old }
    requires time { time_of (cycles_in (listing_of code.now)) < 2 ^ 128 }
    ensures lists { Lists (K.told sink.old) (execs_text (text_of form code.now) (listing_of code.now)) result
        (K.told sink.new) }
    ensures time { IfOk result (λ t. t ≡ time_of (cycles_in (listing_of code.now))) }
    ensures sure { IsSure form result }
    ensures count { K.faults sink.old ≤ K.faults sink.new }
    ensures cause { IsFor (K.faults sink.old) (K.faults sink.new) result }
{
    let mut time = 0;
    for exec in 0..code.execs() {
        time = put_exec(alloc, sink, code, form, exec, room, time)?;
    }
    Ok(time)
}

/// Puts the last line.
fn put_end<K: Sink>(sink: &mut K, cycles: u64, time: u128) -> Result<(), SinkFault>
    ensures { Prints (K.told sink.old) (K.faults sink.old) (end_line cycles time) result
        (K.told sink.new) (K.faults sink.new) }
{
    let line = [
        Piece::Text(b"end "),
        Piece::Number(u128::from(cycles)),
        Piece::Text(b" "),
        Piece::Number(time),
        Piece::Text(b"\n"),
    ];
    put_each(sink, &line)
}

/// Puts a listing in a form.
fn put_listing<K: Sink>(
    alloc: Global,
    sink: &mut K,
    code: &Code,
    form: Form,
    room: &mut Room,
) -> Result<(), ListFault>
    requires room { Fits (length code.now.signals) room.old }
    requires few { length (cycles_in (listing_of code.now)) ≤ most_listed }
    ensures lists { Lists (K.told sink.old) (listing_text (text_of form code.now) (listing_of code.now)) result
        (K.told sink.new) }
    ensures sure { IsSure form result }
    ensures count { K.faults sink.old ≤ K.faults sink.new }
    ensures cause { IsFor (K.faults sink.old) (K.faults sink.new) result }
{
    let _conditions = code.signals();
    let time = put_execs(alloc, sink, code, form, room)?;
    put_end(sink, cycle_total(code), time)?;
    Ok(())
}

/// Puts the dated cycles of a code of at most 65,536 cycles: for each executive its line and the line of each cycle, with
/// its number and start in its executive, its table, and one character for each signal; then the number of all cycles and
/// how long they take, in femtoseconds. It wants memory before it puts anything, and not later.
pub fn put_cycles<K: Sink>(alloc: Global, sink: &mut K, code: &Code) -> Result<(), ListFault>
    requires few { length (cycles_in (listing_of code.now)) ≤ most_listed }
    ensures puts { ListsWhole (K.told sink.old) (cycles_text (listing_of code.now)) result (K.told sink.new) }
    ensures count { K.faults sink.old ≤ K.faults sink.new }
    ensures cause { IsFor (K.faults sink.old) (K.faults sink.new) result }
{
    let mut room = Room::new(alloc, code)?;
    put_listing(alloc, sink, code, Form::Cycles, &mut room)
}

/// Puts the moments of the cycles of a code of at most 65,536 cycles, where no signal has a skew: for each executive its
/// line, the line of each cycle, and a line for each of its moments, with its drives and looks; then the number of all
/// cycles and how long they take, in femtoseconds. Where memory is wanting, whole lines stand before.
pub fn put_events<K: Sink>(alloc: Global, sink: &mut K, code: &Code) -> Result<(), ListFault>
    requires few { length (cycles_in (listing_of code.now)) ≤ most_listed }
    ensures lists { Lists (K.told sink.old) (events_text (names_of code.now) (listing_of code.now)) result
        (K.told sink.new) }
    ensures count { K.faults sink.old ≤ K.faults sink.new }
    ensures cause { IsFor (K.faults sink.old) (K.faults sink.new) result }
{
    let mut room = Room::new(alloc, code)?;
    put_listing(alloc, sink, code, Form::Events, &mut room)
}
