//! The lines of a grade.

ghost use Rattle.std.specs.Prelude.{◌≡◌, [], count_by, slice_index_or};
ghost use Rattle.std.specs.List.{flat_map};
ghost use Rattle.tester_types.specs.Outside.{Prints};
ghost use Rattle.tester_types.specs.Printing.{piece_text};
ghost use Rattle.grade_listing.specs.GradeText.{cycle_text, is_found, good_line, fault_line, total_line, grade_text};

use bench_net::Netlist;
use fault_grade::{Grade, Graded};
use tester_types::{Piece, Sink, SinkFault, put_each};

/// Puts the lines of a grade of dies with this netlist: `good CYCLE` or `good none`; for each fault `fault NET VALUE CYCLE`, with
/// `none` where no cycle finds it; and `faults N found M`. It takes no memory.
pub fn print_grade<K: Sink>(net: &Netlist, grade: &Grade, sink: &mut K) -> Result<(), SinkFault>
    ensures { Prints (K.told sink.old) (K.faults sink.old) (grade_text net.now.net.names grade.now) result
        (K.told sink.new) (K.faults sink.new) }
{
    put_good(sink, grade.good)?;
    put_faults(sink, net, grade.faults.as_slice())?;
    put_total(sink, grade.faults.as_slice())
}

/// Puts the first failing cycle of the good die.
fn put_good<K: Sink>(sink: &mut K, cycle: Option<u64>) -> Result<(), SinkFault>
    ensures { Prints (K.told sink.old) (K.faults sink.old) (good_line cycle) result
        (K.told sink.new) (K.faults sink.new) }
{
    let line = [
        Piece::Text(b"good "),
        cycle_piece(cycle),
        Piece::Text(b"\n"),
    ];
    put_each(sink, &line)
}

/// A cycle, or that there is none.
fn cycle_piece(cycle: Option<u64>) -> Piece<'static>
    ensures { piece_text result ≡ cycle_text cycle }
{
    match cycle {
        Some(cycle) => Piece::Number(u128::from(cycle)),
        None => Piece::Text(b"none"),
    }
}

/// The name of a net, and none past the last.
fn name_of(net: &Netlist, number: u32) -> &[u8]
    ensures { result.now ≡ slice_index_or net.now.net.names number [] }
{
    if number < net.nets() {
        net.name(number)
    } else {
        b""
    }
}

/// Puts a fault with its first failing cycle.
fn put_fault<K: Sink>(sink: &mut K, net: &Netlist, graded: Graded) -> Result<(), SinkFault>
    ensures { Prints (K.told sink.old) (K.faults sink.old) (fault_line net.now.net.names graded) result
        (K.told sink.new) (K.faults sink.new) }
{
    let value: &[u8] = if graded.value { b" 1 " } else { b" 0 " };
    let line = [
        Piece::Text(b"fault "),
        Piece::Name(name_of(net, graded.net)),
        Piece::Text(value),
        cycle_piece(graded.first),
        Piece::Text(b"\n"),
    ];
    put_each(sink, &line)
}

/// Puts faults one after another.
fn put_faults<K: Sink>(sink: &mut K, net: &Netlist, faults: &[Graded]) -> Result<(), SinkFault>
    ensures { Prints (K.told sink.old) (K.faults sink.old)
        (flat_map (fault_line net.now.net.names) faults.now) result (K.told sink.new) (K.faults sink.new) }
{
    for graded in faults {
        put_fault(sink, net, *graded)?;
    }
    Ok(())
}

/// How many faults some cycle finds.
fn found_among(faults: &[Graded]) -> u64
    ensures { result ≡ count_by is_found faults.now }
{
    let mut found = 0;
    for graded in faults {
        if graded.first.is_some() {
            found += 1;
        }
    }
    found
}

/// Puts how many faults there are, and how many are found.
fn put_total<K: Sink>(sink: &mut K, faults: &[Graded]) -> Result<(), SinkFault>
    ensures { Prints (K.told sink.old) (K.faults sink.old) (total_line faults.now) result
        (K.told sink.new) (K.faults sink.new) }
{
    let line = [
        Piece::Text(b"faults "),
        Piece::Number(faults.len() as u128),
        Piece::Text(b" found "),
        Piece::Number(u128::from(found_among(faults))),
        Piece::Text(b"\n"),
    ];
    put_each(sink, &line)
}
