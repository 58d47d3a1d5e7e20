//! How a run ends: the line of a status, put whole, or a write fault.

ghost use Rattle.std.specs.List.{flat_map};
ghost use Rattle.tester_types.specs.Printing.{piece_text};
ghost use Rattle.tool_inputs.specs.Endings.{Ends, memory_line};
ghost use Rattle.tool_inputs.specs.declared.status.Status.TheVariants.{OutOfMemory};

use crate::status::Status;
use tester_types::{Piece, Sink, put_each};

/// Puts the line of a refusal, and answers its status.
pub fn ended<K: Sink>(out: &mut K, line: &[Piece], status: Status) -> Status
    ensures { Ends (K.told out.old) (K.faults out.old)
        status (flat_map piece_text line.now) result (K.told out.new) (K.faults out.new) }
{
    match put_each(out, line) {
        Ok(()) => status,
        Err(_) => Status::WriteFault,
    }
}

/// Says that there was no memory.
pub fn no_memory<K: Sink>(out: &mut K) -> Status
    ensures { Ends (K.told out.old) (K.faults out.old)
        OutOfMemory memory_line result (K.told out.new) (K.faults out.new) }
{
    ended(out, &[Piece::Text(b"out of memory\n")], Status::OutOfMemory)
}
