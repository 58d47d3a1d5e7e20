//! Known dumps, read; and texts that stop being one at a line.

ghost use Rattle.std.specs.Prelude.{◌≤◌, length};

use std::alloc::Global;
use std::test::Fail;
use tester_types::{Drive, MemSink, put_all};
use vcd_text::*;

/// An input that goes down at 0 and up after 100 ns.
const DUMP: &[u8] =
    b"$timescale 1 fs $end\n$scope module die $end\n$var wire 1 ! A $end\n$upscope $end\n$enddefinitions $end\n#0\n0!\n#100000000\n1!\n";

/// What comes of the first lines of it: the line of the fault, or 0 where they are a dump.
const CUTS: [u32; 9] = [2, 3, 4, 5, 0, 7, 0, 9, 0];

/// The head of a dump of an input and a clock, six lines.
const HEAD: &[u8] =
    b"$timescale 1 fs $end\n$scope module die $end\n$var wire 1 ! d $end\n$var wire 1 \" ck $end\n$upscope $end\n$enddefinitions $end\n";

/// What stands behind the head, and what comes of it.
const TAILS: [(&[u8], u32); 12] = [
    (b"#5\n0!\n#5\n", 9),
    (b"#5\n0!\n#4\n", 9),
    (b"#5\n#6\n", 8),
    (b"0!\n", 7),
    (b"#05\n", 7),
    (b"#5\n0\"\n0!\n", 9),
    (b"#5\n0#\n", 8),
    (b"#5\n2!\n", 8),
    (b"#5\n0!", 8),
    (b"#340282366920938463463374607431768211456\n", 7),
    (b"#340282366920938463463374607431768211455\nz!\n", 0),
    (b"#5\n0!\nx\"\n", 0),
];

/// The line of the fault of a text, or 0 where it is a dump.
fn fault_line(alloc: Global, text: &[u8]) -> Result<u32, Fail>
    requires { length text.now ≤ 1000000 }
{
    match read_dump(alloc, text) {
        Ok(_) => Ok(0),
        Err(DumpFault::Line(line)) => Ok(line),
        Err(DumpFault::NoMemory) => Err("there is memory".into()),
    }
}

#[test]
fn a_text_that_is_cut_ends_behind_its_last_line(rt: HostRuntime) -> Result<(), Fail> {
    let mut line = 0;
    for (place, byte) in DUMP.iter().enumerate() {
        if *byte == b'\n' && place < DUMP.len() && line < CUTS.len() {
            assert!(rt; fault_line(rt.alloc(), &DUMP[..place + 1])? == CUTS[line]);
            line += 1;
        }
    }
    Ok(())
}

#[test]
fn a_line_that_no_dump_goes_on_with_is_the_fault(rt: HostRuntime) -> Result<(), Fail> {
    for (tail, line) in TAILS {
        let mut text = Vec::from_slice(rt.alloc(), HEAD)?;
        text.extend_from_slice(tail)?;
        if text.len() > 1_000_000 {
            return Err("a short text".into());
        }
        assert!(rt; fault_line(rt.alloc(), &text)? == line);
    }
    Ok(())
}

#[test]
fn a_dump_is_read_as_its_vars_and_its_tape(rt: HostRuntime) -> Result<(), Fail> {
    let Ok(dump) = read_dump(rt.alloc(), DUMP) else {
        return Err("it is a dump".into());
    };
    assert!(rt; dump.vars.len() == 1 && dump.tape.len() == 2);
    if dump.tape.len() == 2 {
        assert!(rt;
            dump.tape.instant(1) == 100_000_000
                && dump.tape.drives(1) == [(0, Drive::Up)].as_slice()
        );
    }
    Ok(())
}

#[test]
fn all_signals_are_dumped(rt: HostRuntime) -> Result<(), Fail> {
    let alloc = rt.alloc();
    let mut sink = MemSink::new(alloc, 50_000, 50_000, Vec::new(alloc), Vec::new(alloc))?;
    put_start(&mut sink)?;
    for signal in 0..1024u16 {
        put_numbered_var(&mut sink, signal)?;
    }
    put_definitions(&mut sink)?;
    put_all(&mut sink, b"#7\n")?;
    for signal in 0..1024u16 {
        let low = 33 + (signal % 94) as u8;
        let high = 33 + (signal / 94) as u8;
        if signal < 94 {
            put_all(&mut sink, &[b'1', low, b'\n'])?;
        } else {
            put_all(&mut sink, &[b'1', low, high, b'\n'])?;
        }
    }
    let text = sink.bytes();
    if text.len() > 1_000_000 {
        return Err("a short text".into());
    }
    let Ok(dump) = read_dump(alloc, text) else {
        return Err("it is a dump".into());
    };
    assert!(rt; dump.vars.len() == 1024 && dump.tape.len() == 1);
    if dump.tape.len() == 1 {
        assert!(rt; dump.tape.drives(0).len() == 1024);
    }
    Ok(())
}
