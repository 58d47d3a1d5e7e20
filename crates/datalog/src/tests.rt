//! Lines that no lot has yet, as a sink in memory holds them: verdicts of tries that are stopped, and cells.

use crate::cells::put_cell_in;
use crate::trials::put_verdict;
use cell_names::CellNames;
use packed_code::CodeChain;
use std::alloc::Global;
use std::test::Fail;
use tester_types::{By, Items, MemSink, NoMemory, Text, Verdict};

/// A sink with ample room.
fn sink(alloc: Global) -> Result<MemSink, NoMemory> {
    MemSink::new(alloc, 999, 999, Vec::new(alloc), Vec::new(alloc))
}

/// The bytes as a text.
fn text(alloc: Global, bytes: &[u8]) -> Result<Text, NoMemory> {
    Ok(Items::from_slice(alloc, bytes)?)
}

/// A chain c1 of the cells f5, f6 and f7.
fn chain(alloc: Global) -> Result<CodeChain, NoMemory> {
    let mut cells = Vec::new(alloc);
    cells.push(text(alloc, b"f5")?)?;
    cells.push(text(alloc, b"f6")?)?;
    cells.push(text(alloc, b"f7")?)?;
    Ok(CodeChain {
        name: text(alloc, b"c1")?,
        out: 1,
        length: 3,
        cells: CellNames::new(alloc, cells)?,
    })
}

const VERDICTS: [Verdict; 5] = [
    Verdict::Pass,
    Verdict::Fail(3),
    Verdict::Stopped(2, By::Plan),
    Verdict::Stopped(0, By::Desk(1)),
    Verdict::Contact(40_000_000),
];

#[test]
fn verdicts_say_how_tries_ended(rt: HostRuntime) -> Result<(), Fail> {
    let mut sink = sink(rt.alloc())?;
    for verdict in &VERDICTS {
        put_verdict(&mut sink, verdict)?;
    }
    let lines =
        b"verdict pass\nverdict fail 3\nverdict stopped 2 plan\nverdict stopped 0 desk 1\nverdict contact 40000000\n";
    assert!(rt; sink.bytes() == lines.as_slice());
    Ok(())
}

#[test]
fn a_mark_counts_cells_from_the_scan_out(rt: HostRuntime) -> Result<(), Fail> {
    let mut sink = sink(rt.alloc())?;
    let chain = chain(rt.alloc())?;
    for mark in 0..5u32 {
        put_cell_in(&mut sink, mark, &chain)?;
    }
    assert!(rt; sink.bytes() == b" c1 f7 c1 f6 c1 f5".as_slice());
    Ok(())
}
