//! The numbers of a code.

ghost use Rattle.std.specs.Prelude.{◌≡◌, ◌≤◌, ◌*◌};
ghost use Rattle.tester_types.specs.Outside.{Prints};
ghost use Rattle.code_listing.specs.Text.{check_text, cycles_among, instrs_among};

use packed_code::Code;
use tester_types::{Piece, Sink, SinkFault, put_each};

/// How many cycles the executives of a code have in all.
pub fn cycle_total(code: &Code) -> u64
    ensures exact { result ≡ cycles_among code.now.execs }
    ensures few { result ≤ 64 * 281474976710656 }
{
    let _conditions = code.signals();
    let mut total = 0;
    for exec in 0..code.execs() {
        total += code.cycles(exec);
    }
    total
}

/// How many instructions they have in all.
fn instr_total(code: &Code) -> u64
    ensures { result ≡ instrs_among code.now.execs }
{
    let _conditions = code.signals();
    let mut total = 0;
    for exec in 0..code.execs() {
        total += u64::from(code.instrs(exec));
    }
    total
}

/// Puts the numbers of a code: of its executives, their cycles, its rows, its instructions, and their pages.
pub fn put_check<K: Sink>(sink: &mut K, code: &Code) -> Result<(), SinkFault>
    ensures { Prints (K.told sink.old) (K.faults sink.old) (check_text code.now) result
        (K.told sink.new) (K.faults sink.new) }
{
    let line = [
        Piece::Text(b"ok execs "),
        Piece::Number(u128::from(code.execs())),
        Piece::Text(b" cycles "),
        Piece::Number(u128::from(cycle_total(code))),
        Piece::Text(b" rows "),
        Piece::Number(u128::from(code.rows())),
        Piece::Text(b" instructions "),
        Piece::Number(u128::from(instr_total(code))),
        Piece::Text(b" pages "),
        Piece::Number(u128::from(code.pages())),
        Piece::Text(b"\n"),
    ];
    put_each(sink, &line)
}
