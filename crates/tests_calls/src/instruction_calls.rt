//! What no contract says: that calls succeed.

ghost use Rattle.std.specs.Prelude.{◌≡◌, IfOk, length};
ghost use Rattle.wave_tables.specs.Waves.{AreInOrder};

use cycle_comp::*;
use flat_tree::{BodyKind, FlatList, Origin};
use packed_code::{Instr, RowList};
use std::alloc::{AllocError, Global};
use std::test::Fail;
use stil_ast::StilKind;
use tester_types::{EventList, Table, Text, Wave, WaveList};
use wave_tables::WaveSet;

/// A table with a wave for one character of the first signal.
fn table(alloc: Global, character: u8) -> Result<Table, AllocError>
    ensures { IfOk result (λ t. AreInOrder t.waves) }
{
    let events = EventList::from_vec(Vec::new(alloc));
    let waves = WaveList::of_one(
        alloc,
        Wave {
            signal: 0,
            character,
            events,
        },
    )?;
    Ok(Table {
        name: Text::from_slice(alloc, b"t")?,
        period: 10,
        waves,
    })
}

/// One table for `0`, and one for `1`.
fn two_tables(alloc: Global) -> Result<WaveSet, AllocError>
    ensures { IfOk result (λ set. length set ≡ 2) }
{
    let mut tables = Vec::new(alloc);
    tables.push(table(alloc, b'0')?)?;
    tables.push(table(alloc, b'1')?)?;
    Ok(WaveSet::from_vec(tables))
}

/// Under the second table, three passes of two vectors and an assignment behind them.
fn looped(alloc: Global, character: u8) -> Result<Vec<FlatList>, AllocError> {
    let mut body = FlatList::new(alloc);
    for mark in 0..2 {
        let place = Origin {
            body: BodyKind::Macro,
            line: 7 + mark,
        };
        body.push_cycle(0, place)?;
    }
    body.push_character(0, character)?;
    let mut tree = FlatList::new(alloc);
    tree.push_table(1)?;
    tree.push_repeat(3, body)?;
    let mut trees = Vec::new(alloc);
    trees.push(FlatList::new(alloc))?;
    trees.push(tree)?;
    Ok(trees)
}

/// Two cycles of a row under the fifth table of the code.
fn twice(row: u32) -> Instr {
    Instr::Run {
        table: 4,
        row,
        mark: 0,
        times: 2,
    }
}

#[test]
fn the_first_pass_stands_before_the_loop(rt: HostRuntime) -> Result<(), Fail> {
    let set = two_tables(rt.alloc())?;
    let trees = looped(rt.alloc(), b'1')?;
    let mut rows = RowList::new(rt.alloc());
    let written = write(rt.alloc(), &set, 3, 1, trees.as_slice(), &mut rows);
    let wanted = [
        twice(0),
        Instr::Loop { times: 2 },
        twice(1),
        Instr::End,
        Instr::Done,
    ];
    assert!(rt; written.is_ok_and(|code| code.as_slice() == wanted.as_slice()));
    assert!(rt; rows.len() == 2);
    Ok(())
}

/// Whether it is the fault of the first V in the second pass.
fn is_in_second_pass(error: &WriteError) -> bool {
    match error {
        WriteError::NoMemory => false,
        WriteError::Fault(fault) => {
            fault.tree == 1 && fault.place.line == 7 && fault.kind == StilKind::NoWave
        }
    }
}

#[test]
fn a_wave_is_missing_in_the_second_pass(rt: HostRuntime) -> Result<(), Fail> {
    let set = two_tables(rt.alloc())?;
    let trees = looped(rt.alloc(), b'0')?;
    let mut rows = RowList::new(rt.alloc());
    let written = write(rt.alloc(), &set, 3, 1, trees.as_slice(), &mut rows);
    assert!(rt; written.is_err_and(|error| is_in_second_pass(&error)));
    Ok(())
}
