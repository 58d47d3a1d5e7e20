//! A dump, read from its text.

ghost use Rattle.std.specs.Prelude.{◌≡◌, ◌^◌, ◌-◌, ◌+◌, ◌<◌, ◌⊎◌, ◌==◌, ℕ, List, IfOk, IfErr, MatchResult, length};
ghost use Rattle.std.specs.List.{position};
ghost use Rattle.die_sim.specs.Socket.{Calls};
ghost use Rattle.vcd_text.specs.Dump.{Var, dump_of};
ghost use Rattle.vcd_text.specs.Sound.{IsSound};
ghost use Rattle.vcd_text.specs.Refusal.{IsFault, IsFaultOf};
ghost use Rattle.vcd_text.specs.Read.{IsLineEnd, IsReadUp, Reads};
ghost use Rattle.vcd_text.specs.Standing.{begun};
ghost use Rattle.vcd_text.specs.declared.read.DumpFault.TheVariants as fault;

use crate::dump::Dump;
use crate::reader::Reader;
use std::alloc::Global;
use tester_types::NoMemory;

/// Why a text wasn't read as a dump.
#[derive(Clone, Copy, Debug, PartialEq, Eq)]
pub enum DumpFault {
    NoMemory,
    /// The first of its lines, counted from 1, at which it is the front of no dump; the number of its lines and 1 where it is
    /// only too short or has a rest.
    Line(u32),
}

impl From<NoMemory> for DumpFault {
    ghost from_gives = { λ _ e. e ≡ fault.NoMemory };

    fn from(_e: NoMemory) -> DumpFault {
        DumpFault::NoMemory
    }
}

/// Where the first line feed stands.
fn first_feed(text: &[u8]) -> Option<usize>
    ensures { result ≡ position (λ b. b == 10) text.now }
{
    text.iter().position(|byte| *byte == b'\n')
}

/// Where the first line ends: the place of its line feed, else the end of the text.
fn line_end(text: &[u8]) -> usize
    ensures { IsLineEnd text.now result }
{
    match first_feed(text) {
        Some(end) => end,
        None => text.len(),
    }
}

/// Reads the lines of a text. Answers how many there are, and what stands behind the last.
fn read_lines<'a>(bytes: &'a [u8], reader: &mut Reader) -> Result<(u32, &'a [u8]), DumpFault>
    requires few { length bytes.now < 2 ^ 32 - 1 }
    requires new { reader.old ≡ begun }
    ensures { Reads bytes.now (λ left. IsReadUp bytes.now left.1.now left.0 reader.new) result }
{
    let mut rest = bytes;
    let mut lines = 0u32;
    let mut end = line_end(rest);
    while end < rest.len() {
        if !reader.take_text(&rest[..end])? {
            return Err(DumpFault::Line(lines + 1));
        }
        lines += 1;
        rest = &rest[end + 1..];
        end = line_end(rest);
    }
    Ok((lines, rest))
}

/// Reads a whole text.
fn read_whole(alloc: Global, bytes: &[u8]) -> Result<Dump, DumpFault>
    requires { length bytes.now < 2 ^ 32 - 1 }
    ensures { Reads bytes.now (λ d. IsSound d.vars d.tape.calls × (bytes.now ≡ dump_of d.vars d.tape.calls)) result }
{
    let mut reader = Reader::new(alloc)?;
    let (lines, rest) = read_lines(bytes, &mut reader)?;
    if !rest.is_empty() {
        return Err(DumpFault::Line(lines + 1));
    }
    match reader.finish()? {
        Some(dump) => Ok(dump),
        None => Err(DumpFault::Line(lines + 1)),
    }
}

/// Only tests call it: the vars and the tape of which a text is the dump.
pub fn read_dump(alloc: Global, bytes: &[u8]) -> Result<Dump, DumpFault>
    requires { length bytes.now < 2 ^ 32 - 1 }
    // What is read is sound, and the text is its dump.
    ensures found { IfOk result (λ d. IsSound d.vars d.tape.calls × (bytes.now ≡ dump_of d.vars d.tape.calls)) }
    // The dump of sound vars and a tape is read as these, unless memory runs out.
    ensures only { (vars : List Var) (calls : Calls) → IsSound vars calls → bytes.now ≡ dump_of vars calls
        → MatchResult result (λ d. (d.vars ≡ vars) × (d.tape.calls ≡ calls)) (λ e. e ≡ fault.NoMemory) }
    // Which line a fault is at.
    ensures fault { IfErr result (λ e. IsFaultOf bytes.now e) }
    // Where a text has a fault it is refused at that line, unless memory runs out.
    ensures refused { (line : ℕ) → IsFault bytes.now line
        → MatchResult result (λ _. ⊥) (λ e. (e ≡ fault.NoMemory) ⊎ (e ≡ fault.Line line)) }
{
    read_whole(alloc, bytes)
}
