//! The lines of a cycle's moments.

ghost use Rattle.std.specs.Prelude.{◌≡◌, ◌<◌, ◌≤◌, ◌^◌, ◌++◌, length, slice_index_or, []};
ghost use Rattle.std.specs.List.{flat_map};
ghost use Rattle.tester_types.specs.Outside.{Prints};
ghost use Rattle.packed_code.specs.Walk.{IsOf};
ghost use Rattle.edge_gen.specs.Signals.{no_skews};
ghost use Rattle.code_listing.specs.Listing.{listed};
ghost use Rattle.code_listing.specs.Lines.{Lists, IsFor};
ghost use Rattle.code_listing.specs.Text.{names_of, push_words, look_words, act_words, instant_words, acts_words};
ghost use Rattle.code_listing.specs.Text.{moment_line, head_line, moments_head, moments_text};

use crate::fault::ListFault;
use edge_gen::schedule;
use packed_code::Code;
use std::alloc::Global;
use tester_types::{
    Cycle, Look, Moment, Piece, Push, Sink, SinkFault, look_letter, push_letter, put_all, put_each,
};

/// The name of a signal, empty where there is none.
fn name_at(code: &Code, signal: u16) -> &[u8]
    ensures { result.now ≡ slice_index_or (names_of code.now) signal [] }
{
    if signal < code.signals() {
        code.signal_name(signal)
    } else {
        b""
    }
}

/// Puts a drive.
fn put_push<K: Sink>(sink: &mut K, code: &Code, signal: u16, push: Push) -> Result<(), SinkFault>
    ensures { Prints (K.told sink.old) (K.faults sink.old) (push_words (names_of code.now) (signal, push)) result
        (K.told sink.new) (K.faults sink.new) }
{
    put_act(sink, name_at(code, signal), b"=", push_letter(push))
}

/// Puts drives.
fn put_pushes<K: Sink>(sink: &mut K, code: &Code, drives: &[(u16, Push)]) -> Result<(), SinkFault>
    ensures { Prints (K.told sink.old) (K.faults sink.old)
        (flat_map (push_words (names_of code.now)) drives.now) result (K.told sink.new) (K.faults sink.new) }
{
    for (signal, push) in drives {
        put_push(sink, code, *signal, *push)?;
    }
    Ok(())
}

/// Puts a look.
fn put_look<K: Sink>(sink: &mut K, code: &Code, signal: u16, look: Look) -> Result<(), SinkFault>
    ensures { Prints (K.told sink.old) (K.faults sink.old) (look_words (names_of code.now) (signal, look)) result
        (K.told sink.new) (K.faults sink.new) }
{
    put_act(sink, name_at(code, signal), b"?", look_letter(look))
}

/// Puts looks.
fn put_looks<K: Sink>(sink: &mut K, code: &Code, looks: &[(u16, Look)]) -> Result<(), SinkFault>
    ensures { Prints (K.told sink.old) (K.faults sink.old)
        (flat_map (look_words (names_of code.now)) looks.now) result (K.told sink.new) (K.faults sink.new) }
{
    for (signal, look) in looks {
        put_look(sink, code, *signal, *look)?;
    }
    Ok(())
}

/// Puts an act of a signal, with the sign that stands between.
fn put_act<'a, K: Sink>(
    sink: &mut K,
    name: &'a [u8],
    sign: &'a [u8],
    letter: &'a [u8],
) -> Result<(), SinkFault>
    ensures { Prints (K.told sink.old) (K.faults sink.old) (act_words name.now sign.now letter.now) result
        (K.told sink.new) (K.faults sink.new) }
{
    let words = [
        Piece::Text(b" "),
        Piece::Name(name),
        Piece::Text(sign),
        Piece::Text(letter),
    ];
    put_each(sink, &words)
}

/// Puts the instant of a moment.
fn put_instant<K: Sink>(sink: &mut K, at: u128) -> Result<(), SinkFault>
    ensures { Prints (K.told sink.old) (K.faults sink.old) (instant_words at) result
        (K.told sink.new) (K.faults sink.new) }
{
    put_each(sink, &[Piece::Text(b"at "), Piece::Number(at)])
}

/// Puts the acts of a moment, and ends its line.
fn put_acts<K: Sink>(sink: &mut K, code: &Code, moment: &Moment) -> Result<(), SinkFault>
    ensures { Prints (K.told sink.old) (K.faults sink.old) (acts_words (names_of code.now) moment.now) result
        (K.told sink.new) (K.faults sink.new) }
{
    put_pushes(sink, code, moment.drives.as_slice())?;
    put_looks(sink, code, moment.looks.as_slice())?;
    put_all(sink, b"\n")
}

/// Puts the line of a moment.
fn put_moment<K: Sink>(sink: &mut K, code: &Code, moment: &Moment) -> Result<(), SinkFault>
    ensures { Prints (K.told sink.old) (K.faults sink.old) (moment_line (names_of code.now) moment.now) result
        (K.told sink.new) (K.faults sink.new) }
{
    put_instant(sink, moment.at)?;
    put_acts(sink, code, moment)
}

/// Puts the lines of moments.
fn put_all_moments<K: Sink>(sink: &mut K, code: &Code, moments: &[Moment]) -> Result<(), SinkFault>
    ensures { Prints (K.told sink.old) (K.faults sink.old)
        (flat_map (moment_line (names_of code.now)) moments.now) result (K.told sink.new) (K.faults sink.new) }
{
    for moment in moments {
        put_moment(sink, code, moment)?;
    }
    Ok(())
}

/// Puts the line with which a numbered cycle begins.
fn put_head<K: Sink>(sink: &mut K, code: &Code, number: u64, cycle: &Cycle) -> Result<(), SinkFault>
    requires of { IsOf code.now cycle.now.table cycle.now.row }
    ensures { Prints (K.told sink.old) (K.faults sink.old)
        (moments_head (listed code.now (number, cycle.now))) result (K.told sink.new) (K.faults sink.new) }
{
    let table = code.table(cycle.table).name.as_slice();
    put_head_line(sink, number, cycle.start, table)
}

/// Puts that line with the name of the cycle's table.
fn put_head_line<K: Sink>(
    sink: &mut K,
    number: u64,
    start: u128,
    table: &[u8],
) -> Result<(), SinkFault>
    ensures { Prints (K.told sink.old) (K.faults sink.old) (head_line number start table.now) result
        (K.told sink.new) (K.faults sink.new) }
{
    let line = [
        Piece::Text(b"cycle "),
        Piece::Number(u128::from(number)),
        Piece::Text(b" "),
        Piece::Number(start),
        Piece::Text(b" "),
        Piece::Name(table),
        Piece::Text(b"\n"),
    ];
    put_each(sink, &line)
}

/// Puts a numbered cycle with its moments.
fn put_timed<K: Sink>(
    sink: &mut K,
    code: &Code,
    number: u64,
    cycle: &Cycle,
    moments: &[Moment],
) -> Result<(), SinkFault>
    requires of { IsOf code.now cycle.now.table cycle.now.row }
    ensures { Prints (K.told sink.old) (K.faults sink.old)
        (moments_head (listed code.now (number, cycle.now)) ++ flat_map (moment_line (names_of code.now)) moments.now)
        result (K.told sink.new) (K.faults sink.new) }
{
    put_head(sink, code, number, cycle)?;
    put_all_moments(sink, code, moments)
}

/// Puts a numbered cycle with the moments that it has without skews, once there is memory for them.
pub(crate) fn put_moments<K: Sink>(
    alloc: Global,
    sink: &mut K,
    code: &Code,
    number: u64,
    cycle: &Cycle,
    skews: &[i64],
) -> Result<(), ListFault>
    requires of { IsOf code.now cycle.now.table cycle.now.row }
    requires early { cycle.now.start < 2 ^ 88 }
    requires skews { skews.now ≡ no_skews (length code.now.signals) }
    ensures lists { Lists (K.told sink.old) (moments_text (names_of code.now) (listed code.now (number, cycle.now)))
        result (K.told sink.new) }
    ensures count { K.faults sink.old ≤ K.faults sink.new }
    ensures cause { IsFor (K.faults sink.old) (K.faults sink.new) result }
{
    let _conditions = code.signals();
    let table = code.table(cycle.table);
    let row = code.row(cycle.row);
    let moments = schedule(alloc, table, row, cycle.start, skews)?;
    put_timed(sink, code, number, cycle, moments.as_slice())?;
    Ok(())
}
