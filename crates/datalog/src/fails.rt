//! The lines of fails, with the cells of chains that they name.

ghost use Rattle.std.specs.Prelude.{◌≡◌, ◌<◌, All, length};
ghost use Rattle.std.specs.List.{flat_map};
ghost use Rattle.tester_types.specs.Outside.{Prints};
ghost use Rattle.datalog.specs.DatalogText.{signal_name, found_words, fail_line};
ghost use Rattle.datalog.specs.Printable.{IsKnown};

use crate::cells::put_cell;
use crate::letters::seen_letter;
use packed_code::Code;
use tester_types::{Fail, Piece, Sink, SinkFault, look_letter, put_all, put_each};

/// Puts the lines of fails.
pub(crate) fn put_fails<K: Sink>(sink: &mut K, code: &Code, fails: &[Fail]) -> Result<(), SinkFault>
    requires { All (IsKnown code.now) fails.now }
    ensures { Prints (K.told sink.old) (K.faults sink.old) (flat_map (fail_line code.now) fails.now) result
        (K.told sink.new) (K.faults sink.new) }
{
    for fail in fails {
        put_fail(sink, code, fail)?;
    }
    Ok(())
}

/// Puts the line of a fail.
fn put_fail<K: Sink>(sink: &mut K, code: &Code, fail: &Fail) -> Result<(), SinkFault>
    requires { IsKnown code.now fail.now }
    ensures { Prints (K.told sink.old) (K.faults sink.old) (fail_line code.now fail.now) result
        (K.told sink.new) (K.faults sink.new) }
{
    put_found(sink, code, fail)?;
    put_cell(sink, code, fail)?;
    put_all(sink, b"\n")
}

/// Puts what was found, and where.
fn put_found<K: Sink>(sink: &mut K, code: &Code, fail: &Fail) -> Result<(), SinkFault>
    requires { IsKnown code.now fail.now }
    ensures { Prints (K.told sink.old) (K.faults sink.old) (found_words code.now fail.now) result
        (K.told sink.new) (K.faults sink.new) }
{
    let words = [
        Piece::Text(b"fail "),
        Piece::Number(u128::from(fail.cycle)),
        Piece::Text(b" "),
        Piece::Number(fail.at),
        Piece::Text(b" "),
        Piece::Name(signal_name(code, fail.signal)),
        Piece::Text(b" "),
        Piece::Text(look_letter(fail.want)),
        Piece::Text(b" "),
        Piece::Text(seen_letter(fail.seen)),
    ];
    put_each(sink, &words)
}

/// The name of a signal.
fn signal_name(code: &Code, signal: u16) -> &[u8]
    requires { signal < length code.now.signals }
    ensures { result.now ≡ signal_name code.now signal }
{
    code.signal_name(signal)
}
