//! A dump, put line by line and without memory.

ghost use Rattle.std.specs.Prelude.{◌≡◌, ◌<◌, [], ◌∷◌, ◌++◌, All, codes, decimal};
ghost use Rattle.std.specs.List.{flat_map};
ghost use Rattle.text_bytes.specs.Limits.{most_signals};
ghost use Rattle.tester_types.specs.Outside.{Prints};
ghost use Rattle.vcd_text.specs.Dump.{ended, text_of, named, at, change, timescale, scope, upscope, definitions, line_of_drive, value_of};
ghost use Rattle.vcd_text.specs.Put.{call_text};

use crate::name::{id_bytes, id_len};
use die_sim::Tape;
use tester_types::{Drive, Piece, Sink, SinkFault, put_all, put_each};

/// Puts the lines in front of the vars.
pub fn put_start<K: Sink>(sink: &mut K) -> Result<(), SinkFault>
    ensures { Prints (K.told sink.old) (K.faults sink.old) (text_of (timescale ∷ scope ∷ [])) result
        (K.told sink.new) (K.faults sink.new) }
{
    put_all(sink, b"$timescale 1 fs $end\n$scope module die $end\n")
}

/// Puts the line of a var.
pub fn put_var<K: Sink>(sink: &mut K, signal: u16, name: &[u8]) -> Result<(), SinkFault>
    requires { signal < most_signals }
    ensures { Prints (K.told sink.old) (K.faults sink.old) (ended (named signal name.now)) result
        (K.told sink.new) (K.faults sink.new) }
{
    let digits = id_bytes(signal);
    put_named(sink, &digits[..id_len(signal)], name)
}

/// Puts the line of a var by its short name and its name.
fn put_named<'a, K: Sink>(sink: &mut K, id: &'a [u8], name: &'a [u8]) -> Result<(), SinkFault>
    ensures { Prints (K.told sink.old) (K.faults sink.old)
        (codes "$var wire 1 " ++ (id.now ++ (codes " " ++ (name.now ++ codes " $end\n")))) result
        (K.told sink.new) (K.faults sink.new) }
{
    let line = [
        Piece::Text(b"$var wire 1 "),
        Piece::Text(id),
        Piece::Text(b" "),
        Piece::Text(name),
        Piece::Text(b" $end\n"),
    ];
    put_each(sink, &line)
}

/// Puts the line of a var that is named by its signal's number.
pub fn put_numbered_var<K: Sink>(sink: &mut K, signal: u16) -> Result<(), SinkFault>
    requires { signal < most_signals }
    ensures { Prints (K.told sink.old) (K.faults sink.old)
        (ended (named signal (codes "s" ++ decimal signal))) result (K.told sink.new) (K.faults sink.new) }
{
    let digits = id_bytes(signal);
    put_numbered(sink, &digits[..id_len(signal)], u128::from(signal))
}

/// Puts the line of a var by its short name and its number.
fn put_numbered<K: Sink>(sink: &mut K, id: &[u8], number: u128) -> Result<(), SinkFault>
    ensures { Prints (K.told sink.old) (K.faults sink.old)
        (codes "$var wire 1 " ++ (id.now ++ (codes " s" ++ (decimal number ++ codes " $end\n")))) result
        (K.told sink.new) (K.faults sink.new) }
{
    let line = [
        Piece::Text(b"$var wire 1 "),
        Piece::Text(id),
        Piece::Text(b" s"),
        Piece::Number(number),
        Piece::Text(b" $end\n"),
    ];
    put_each(sink, &line)
}

/// Puts the lines between the vars and the calls.
pub fn put_definitions<K: Sink>(sink: &mut K) -> Result<(), SinkFault>
    ensures { Prints (K.told sink.old) (K.faults sink.old) (text_of (upscope ∷ definitions ∷ [])) result
        (K.told sink.new) (K.faults sink.new) }
{
    put_all(sink, b"$upscope $end\n$enddefinitions $end\n")
}

/// The byte of a value.
fn value_of(drive: Drive) -> u8
    ensures { result ≡ value_of drive }
{
    match drive {
        Drive::Down => b'0',
        Drive::Up => b'1',
        Drive::Off => b'z',
        Drive::Unknown => b'x',
    }
}

/// Puts the line of a drive.
fn put_change<K: Sink>(sink: &mut K, signal: u16, drive: Drive) -> Result<(), SinkFault>
    requires { signal < most_signals }
    ensures { Prints (K.told sink.old) (K.faults sink.old) (ended (change signal drive)) result
        (K.told sink.new) (K.faults sink.new) }
{
    let digits = id_bytes(signal);
    if id_len(signal) == 1 {
        put_all(sink, &[value_of(drive), digits[0], b'\n'])
    } else {
        put_all(sink, &[value_of(drive), digits[0], digits[1], b'\n'])
    }
}

/// Puts the line of an instant.
fn put_instant<K: Sink>(sink: &mut K, instant: u128) -> Result<(), SinkFault>
    ensures { Prints (K.told sink.old) (K.faults sink.old) (ended (at instant)) result
        (K.told sink.new) (K.faults sink.new) }
{
    let line = [
        Piece::Text(b"#"),
        Piece::Number(instant),
        Piece::Text(b"\n"),
    ];
    put_each(sink, &line)
}

/// Puts the lines of drives.
fn put_changes<K: Sink>(sink: &mut K, drives: &[(u16, Drive)]) -> Result<(), SinkFault>
    requires { All (λ given. given.0 < most_signals) drives.now }
    ensures { Prints (K.told sink.old) (K.faults sink.old)
        (flat_map (λ given. ended (line_of_drive given)) drives.now) result (K.told sink.new) (K.faults sink.new) }
{
    for (signal, drive) in drives {
        put_change(sink, *signal, *drive)?;
    }
    Ok(())
}

/// Puts the lines of a call.
fn put_call<K: Sink>(sink: &mut K, instant: u128, drives: &[(u16, Drive)]) -> Result<(), SinkFault>
    requires { All (λ given. given.0 < most_signals) drives.now }
    ensures { Prints (K.told sink.old) (K.faults sink.old) (call_text (instant, drives.now)) result
        (K.told sink.new) (K.faults sink.new) }
{
    put_instant(sink, instant)?;
    put_changes(sink, drives)
}

/// Puts the lines of the calls of a tape.
pub fn put_calls<K: Sink>(sink: &mut K, tape: &Tape) -> Result<(), SinkFault>
    requires { All (λ call. All (λ given. given.0 < most_signals) call.1) tape.now.calls }
    ensures { Prints (K.told sink.old) (K.faults sink.old) (flat_map call_text tape.now.calls) result
        (K.told sink.new) (K.faults sink.new) }
{
    for place in 0..tape.len() {
        put_call(sink, tape.instant(place), tape.drives(place))?;
    }
    Ok(())
}
