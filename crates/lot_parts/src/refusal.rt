//! Why parts aren't merged, and the line of each refusal.

ghost use Rattle.lot_parts.specs.Endings.{EndsAs};
ghost use Rattle.lot_parts.specs.Refusals.{outcome_of, line_of, part_line, IsRefusalBy};
ghost use Rattle.lot_parts.specs.declared.outcome.Outcome.TheVariants.{RefusedPart};

use crate::outcome::Outcome;
use part_lines::LineFault;
use std::alloc::Global;
use tester_types::{Piece, Sink, Text, put_each};
use tool_inputs::{Refusal, Status, put_refusal};

/// Why parts aren't merged.
#[derive(Debug, Drop)]
pub enum PartRefusal {
    /// As a command of the tester is refused.
    Of(Refusal),
    /// The file of this name is no text of its part: the first line, counted from 1, up to which none begins as it does.
    Part(Text, u64),
}

/// Why the file of this name isn't taken.
pub(crate) fn part_refusal(alloc: Global, file: &str, fault: LineFault) -> PartRefusal
    ensures { IsRefusalBy file.now fault result }
{
    match fault {
        LineFault::NoMemory => PartRefusal::Of(Refusal::NoMemory),
        LineFault::Line(line) => match Vec::from_slice(alloc, file.as_bytes()) {
            Ok(name) => PartRefusal::Part(Text::from_vec(name), line),
            Err(_) => PartRefusal::Of(Refusal::NoMemory),
        },
    }
}

/// Puts the line of a refusal, and answers its outcome.
pub fn put_part_refusal<K: Sink>(out: &mut K, refusal: &PartRefusal) -> Outcome
    ensures { EndsAs (K.told out.old) (K.faults out.old)
        (outcome_of refusal.now) (line_of refusal.now) result (K.told out.new) (K.faults out.new) }
{
    match refusal {
        PartRefusal::Of(refusal) => Outcome::Ended(put_refusal(out, refusal)),
        PartRefusal::Part(file, line) => put_part(out, file.as_slice(), *line),
    }
}

/// Puts the line of a file that is no text of its part.
fn put_part<K: Sink>(out: &mut K, file: &[u8], line: u64) -> Outcome
    ensures { EndsAs (K.told out.old) (K.faults out.old)
        RefusedPart (part_line file.now line) result (K.told out.new) (K.faults out.new) }
{
    let pieces = [
        Piece::Text(b"refused part "),
        Piece::Name(file),
        Piece::Text(b" "),
        Piece::Number(u128::from(line)),
        Piece::Text(b"\n"),
    ];
    match put_each(out, &pieces) {
        Ok(()) => Outcome::RefusedPart,
        Err(_) => Outcome::Ended(Status::WriteFault),
    }
}
