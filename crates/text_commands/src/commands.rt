//! The commands that need no tester: what each answers, and the line of each refusal.

ghost use Rattle.std.specs.Prelude.{◌≤◌, ℕ, List, length};
ghost use Rattle.tester_types.specs.Outside.{Loads};
ghost use Rattle.text_bytes.specs.Limits.{most_bytes};
ghost use Rattle.packed_code.specs.Conditions.{IsProgram};
ghost use Rattle.text_commands.specs.Commands.{saved_form, FileWants, BytesWant};
ghost use Rattle.text_commands.specs.FlatWants.{FlatWant, flat_status, flat_line};
ghost use Rattle.tool_inputs.specs.Endings.{Answers, Ends};
ghost use Rattle.tool_inputs.specs.declared.status.Status.TheVariants.{Done};
ghost use Rattle.text_commands.specs.declared.command.Command.TheVariants.{Check, Cycles, Events, Save, Flat};

use crate::command::Command;
use crate::few_cycles::listed_code;
use code_listing::{ListFault, put_check, put_cycles, put_events};
use flat_stil::{FlatFault, flat, has_plain_names};
use page_code::{Code, save, saved_len};
use std::alloc::Global;
use stil_program::program;
use tester_types::{Piece, Shelf, ShelfFault, Sink, put_all};
use tool_inputs::{LIMIT, Status, ended, no_memory, put_stil};

/// Runs a command on a file.
pub fn run_file<F: Shelf, K: Sink>(
    alloc: Global,
    command: Command,
    file: &str,
    shelf: &mut F,
    out: &mut K,
) -> Status
    ensures answers { Answers (FileWants command file.now (F.told shelf.old) (F.faults shelf.old) (F.faults shelf.new))
        (K.told out.old) (K.faults out.old) result (K.told out.new) (K.faults out.new) }
    ensures loads { Loads (F.told shelf.old) (F.faults shelf.old) (F.told shelf.new) (F.faults shelf.new) }
{
    let name = Piece::Name(file.as_bytes());
    match shelf.load(alloc, file, LIMIT) {
        Ok(bytes) => run_text(alloc, command, file, bytes.as_slice(), out),
        Err(ShelfFault::Failed) => {
            ended(
                out,
                &[Piece::Text(b"read fault "), name, Piece::Text(b"\n")],
                Status::ReadFault,
            )
        }
        Err(ShelfFault::TooLong) => {
            ended(
                out,
                &[Piece::Text(b"too long "), name, Piece::Text(b"\n")],
                Status::TooLong,
            )
        }
        Err(ShelfFault::NoMemory) => no_memory(out),
    }
}

/// Runs a command on a text.
fn run_text<K: Sink>(
    alloc: Global,
    command: Command,
    file: &str,
    bytes: &[u8],
    out: &mut K,
) -> Status
    requires { length bytes.now ≤ most_bytes }
    ensures { Answers (BytesWant command file.now bytes.now)
        (K.told out.old) (K.faults out.old) result (K.told out.new) (K.faults out.new) }
{
    match command {
        Command::Check => check(alloc, bytes, out),
        Command::Cycles => cycles(alloc, bytes, out),
        Command::Events => events(alloc, bytes, out),
        Command::Save => save_text(alloc, file, bytes, out),
        Command::Flat => flat_command(alloc, file, bytes, out),
    }
}

/// Prints the numbers of a text's code.
fn check<K: Sink>(alloc: Global, bytes: &[u8], out: &mut K) -> Status
    requires { length bytes.now ≤ most_bytes }
    ensures { (file : List ℕ) → Answers (BytesWant Check file bytes.now)
        (K.told out.old) (K.faults out.old) result (K.told out.new) (K.faults out.new) }
{
    match program(alloc, bytes) {
        Ok(code) => match put_check(out, &code) {
            Ok(()) => Status::Done,
            Err(_) => Status::WriteFault,
        },
        Err(refusal) => put_stil(out, &refusal),
    }
}

/// Prints the dated cycles of a text.
fn cycles<K: Sink>(alloc: Global, bytes: &[u8], out: &mut K) -> Status
    requires { length bytes.now ≤ most_bytes }
    ensures { (file : List ℕ) → Answers (BytesWant Cycles file bytes.now)
        (K.told out.old) (K.faults out.old) result (K.told out.new) (K.faults out.new) }
{
    let code = match listed_code(alloc, bytes) {
        Ok(code) => code,
        Err(refusal) => return put_stil(out, &refusal),
    };
    match put_cycles(alloc, out, &code) {
        Ok(()) => Status::Done,
        Err(ListFault::NoMemory) => no_memory(out),
        Err(ListFault::Sink(_)) => Status::WriteFault,
    }
}

/// Prints the moments of a text's cycles.
fn events<K: Sink>(alloc: Global, bytes: &[u8], out: &mut K) -> Status
    requires { length bytes.now ≤ most_bytes }
    ensures { (file : List ℕ) → Answers (BytesWant Events file bytes.now)
        (K.told out.old) (K.faults out.old) result (K.told out.new) (K.faults out.new) }
{
    let code = match listed_code(alloc, bytes) {
        Ok(code) => code,
        Err(refusal) => return put_stil(out, &refusal),
    };
    match put_events(alloc, out, &code) {
        Ok(()) => Status::Done,
        Err(ListFault::NoMemory) => no_memory(out),
        Err(ListFault::Sink(_)) => Status::WriteFault,
    }
}

/// Writes a text's code as a saved program.
fn save_text<K: Sink>(alloc: Global, file: &str, bytes: &[u8], out: &mut K) -> Status
    requires { length bytes.now ≤ most_bytes }
    ensures { Answers (BytesWant Save file.now bytes.now)
        (K.told out.old) (K.faults out.old) result (K.told out.new) (K.faults out.new) }
{
    let code = match program(alloc, bytes) {
        Ok(code) => code,
        Err(refusal) => return put_stil(out, &refusal),
    };
    if saved_len(&code) > LIMIT as u64 {
        let _conditions = code.signals();
        let name = Piece::Name(file.as_bytes());
        return ended(
            out,
            &[Piece::Text(b"too long "), name, Piece::Text(b"\n")],
            Status::TooLong,
        );
    }
    put_saved(&code, out)
}

/// Writes a saved program.
fn put_saved<K: Sink>(code: &Code, out: &mut K) -> Status
    ensures ends { Ends (K.told out.old) (K.faults out.old) Done (saved_form code.now) result
        (K.told out.new) (K.faults out.new) }
    ensures conditions { IsProgram code.now }
{
    let _conditions = code.signals();
    match save(code, out) {
        Ok(()) => Status::Done,
        Err(_) => Status::WriteFault,
    }
}

/// Writes the flat text of a text.
fn flat_command<K: Sink>(alloc: Global, file: &str, bytes: &[u8], out: &mut K) -> Status
    requires { length bytes.now ≤ most_bytes }
    ensures { Answers (BytesWant Flat file.now bytes.now)
        (K.told out.old) (K.faults out.old) result (K.told out.new) (K.faults out.new) }
{
    match program(alloc, bytes) {
        Ok(code) => put_flat(alloc, file, &code, out),
        Err(refusal) => put_stil(out, &refusal),
    }
}

/// Writes the flat text of a code of this file.
fn put_flat<K: Sink>(alloc: Global, file: &str, code: &Code, out: &mut K) -> Status
    ensures { Answers (FlatWant file.now code.now)
        (K.told out.old) (K.faults out.old) result (K.told out.new) (K.faults out.new) }
{
    if !has_plain_names(code) {
        return no_memory(out);
    }
    let _conditions = code.signals();
    match flat(alloc, code) {
        Ok(text) => match put_all(out, text.as_slice()) {
            Ok(()) => Status::Done,
            Err(_) => Status::WriteFault,
        },
        Err(fault) => put_flat_fault(file, fault, out),
    }
}

/// Writes why a code of this file has no flat text.
fn put_flat_fault<K: Sink>(file: &str, fault: FlatFault, out: &mut K) -> Status
    ensures { Ends (K.told out.old) (K.faults out.old) (flat_status fault) (flat_line file.now fault) result
        (K.told out.new) (K.faults out.new) }
{
    let name = Piece::Name(file.as_bytes());
    match fault {
        FlatFault::NoMemory => no_memory(out),
        FlatFault::TooLong => {
            ended(
                out,
                &[Piece::Text(b"too long "), name, Piece::Text(b"\n")],
                Status::TooLong,
            )
        }
        FlatFault::TooFlat => {
            ended(
                out,
                &[Piece::Text(b"not flat "), name, Piece::Text(b"\n")],
                Status::TooFlat,
            )
        }
    }
}
