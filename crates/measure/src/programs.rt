//! The saved programs that are measured, in version 2.

use std::alloc::{AllocError, Global};

/// A signal a, a table w with waves for 0 and 1, the rows 0 and 1, and an executive up to its chains.
const FRONT: [u8; 71] = [
    0xD7, 0x53, 0x54, 0x50, 2, 0, 0, 0, 1, 0, 0, 1, 0, b'a', 1, 0, 1, 0, b'w', 0x00, 0xE1, 0xF5,
    0x05, 0, 0, 0, 0, 2, 0, 0, 0, 0, 0, b'0', 1, 0, 0, 0, 0, 0, 0, 0, 0, 1, 0, 0, b'1', 1, 0, 0, 0,
    0, 0, 0, 0, 0, 2, 2, 0, 0, 0, 0, b'0', 0, b'1', 1, 0, 0, 0, 0, 0,
];

/// Runs row 1 of table 0 once.
const RUN: [u8; 16] = [1, 0, 0, 0, 1, 0, 0, 0, 0, 0, 0, 0, 1, 0, 0, 0];

/// Runs what it encloses 2 to the power of 24 times.
const LOOP: [u8; 16] = [2, 0, 0, 0, 0, 0, 0, 0, 0, 0, 0, 1, 0, 0, 0, 0];

const END: [u8; 16] = [3, 0, 0, 0, 0, 0, 0, 0, 0, 0, 0, 0, 0, 0, 0, 0];

const DONE: [u8; 16] = [4, 0, 0, 0, 0, 0, 0, 0, 0, 0, 0, 0, 0, 0, 0, 0];

/// The instructions of the long program, 16 MB of them.
const RUNS: u32 = 1_000_000;

/// The signals of the program of many rows.
const SIGNALS: u16 = 200;

/// The rows of the program of many rows.
const ROWS: u16 = 4096;

/// A program of two loops round one cycle.
pub fn nest(alloc: Global) -> Result<Vec<u8>, AllocError> {
    let mut bytes = Vec::from_slice(alloc, &FRONT)?;
    bytes.extend_from_slice(&6u32.to_le_bytes())?;
    for instr in [LOOP, LOOP, RUN, END, END, DONE] {
        bytes.extend_from_slice(&instr)?;
    }
    Ok(bytes)
}

/// A program of a loop over three pages.
pub fn far(alloc: Global) -> Result<Vec<u8>, AllocError> {
    let mut bytes = Vec::from_slice(alloc, &FRONT)?;
    bytes.extend_from_slice(&602u32.to_le_bytes())?;
    bytes.extend_from_slice(&LOOP)?;
    for _ in 0..599 {
        bytes.extend_from_slice(&RUN)?;
    }
    bytes.extend_from_slice(&END)?;
    bytes.extend_from_slice(&DONE)?;
    Ok(bytes)
}

/// A program of many instructions.
pub fn long(alloc: Global) -> Result<Vec<u8>, AllocError> {
    let mut bytes = Vec::from_slice(alloc, &FRONT)?;
    bytes.extend_from_slice(&(RUNS + 1).to_le_bytes())?;
    for _ in 0..RUNS {
        bytes.extend_from_slice(&RUN)?;
    }
    bytes.extend_from_slice(&DONE)?;
    Ok(bytes)
}

/// Puts the signals, each of a name of two characters.
fn put_signals(bytes: &mut Vec<u8>) -> Result<(), AllocError> {
    bytes.extend_from_slice(&SIGNALS.to_le_bytes())?;
    for signal in 0..SIGNALS {
        let [tens, _] = (signal / 10).to_le_bytes();
        let [ones, _] = (signal % 10).to_le_bytes();
        bytes.extend_from_slice(&[
            0,
            2,
            0,
            b'A'.saturating_add(tens),
            b'0'.saturating_add(ones),
        ])?;
    }
    Ok(())
}

/// Puts a wave of one event at the cycle's start.
fn put_wave(bytes: &mut Vec<u8>, signal: u16, character: u8, act: u8) -> Result<(), AllocError> {
    bytes.extend_from_slice(&signal.to_le_bytes())?;
    bytes.extend_from_slice(&[character, 1, 0, 0, 0, 0, 0, 0, 0, 0, act])
}

/// Puts a table w of 100 ns with waves for 0 and 1 of each signal.
fn put_table(bytes: &mut Vec<u8>) -> Result<(), AllocError> {
    bytes.extend_from_slice(&[1, 0, 1, 0, b'w', 0x00, 0xE1, 0xF5, 0x05, 0, 0, 0, 0])?;
    bytes.extend_from_slice(&(u32::from(SIGNALS) * 2).to_le_bytes())?;
    for signal in 0..SIGNALS {
        put_wave(bytes, signal, b'0', 1)?;
        put_wave(bytes, signal, b'1', 2)?;
    }
    Ok(())
}

/// Puts the first row whole: its first signal is at 1, and so is that behind the first 64.
fn put_first_row(bytes: &mut Vec<u8>) -> Result<(), AllocError> {
    bytes.push(0)?;
    for signal in 0..SIGNALS {
        let is_set = signal % 64 == 0 && signal < 128;
        bytes.push(if is_set { b'1' } else { b'0' })?;
    }
    Ok(())
}

/// Puts a change of a signal.
fn put_change(bytes: &mut Vec<u8>, signal: u16, character: u8) -> Result<(), AllocError> {
    let [low, high] = signal.to_le_bytes();
    bytes.extend_from_slice(&[low, high, character])
}

/// Puts a later row as a difference: the 1 among the first 64 signals moves on, and after the last of these that among
/// the next 64 does too.
fn put_next_row(bytes: &mut Vec<u8>, row: u16) -> Result<(), AllocError> {
    if row % 64 != 0 {
        bytes.extend_from_slice(&[1, 2, 0])?;
        put_change(bytes, row % 64 - 1, b'0')?;
        return put_change(bytes, row % 64, b'1');
    }
    bytes.extend_from_slice(&[1, 4, 0])?;
    put_change(bytes, 0, b'1')?;
    put_change(bytes, 63, b'0')?;
    put_change(bytes, 63 + row / 64, b'0')?;
    put_change(bytes, 64 + row / 64, b'1')
}

/// Puts an instruction for each row.
fn put_runs(bytes: &mut Vec<u8>) -> Result<(), AllocError> {
    for row in 0..ROWS {
        bytes.extend_from_slice(&[1, 0, 0, 0])?;
        bytes.extend_from_slice(&u32::from(row).to_le_bytes())?;
        bytes.extend_from_slice(&[0, 0, 0, 0, 1, 0, 0, 0])?;
    }
    Ok(())
}

/// A program that runs each of many rows once. A row differs from that before it in two signals, or in four.
pub fn many_rows(alloc: Global) -> Result<Vec<u8>, AllocError> {
    let mut bytes = Vec::from_slice(alloc, &[0xD7, 0x53, 0x54, 0x50, 2, 0, 0, 0])?;
    put_signals(&mut bytes)?;
    put_table(&mut bytes)?;
    bytes.extend_from_slice(&u32::from(ROWS).to_le_bytes())?;
    put_first_row(&mut bytes)?;
    for row in 1..ROWS {
        put_next_row(&mut bytes, row)?;
    }
    bytes.extend_from_slice(&[1, 0, 0, 0, 0, 0])?;
    bytes.extend_from_slice(&(u32::from(ROWS) + 1).to_le_bytes())?;
    put_runs(&mut bytes)?;
    bytes.extend_from_slice(&DONE)?;
    Ok(bytes)
}
