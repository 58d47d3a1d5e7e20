//! Builds 1,024 signals and many groups whose texts name each other in a chain, each of all signals, and prints how many
//! signals the first group has. The words are `up`, where each group names the one before it, or `down`, where it names
//! the next, and the number of groups. With a third word it also prints how long the building took.

use crate::words::{number, word};
use signal_groups::build;
use std::alloc::{AllocError, Global};
use std::io;
use std::io::Print;
use std::rt::Clock;
use std::time::Instant;
use stil_ast::{Blocks, GroupBlock, GroupDecl, IndexRange, NameRef, Quoted, SigRef, SignalDecl};
use tester_types::{Direction, Items, Text};

/// The name of a group.
fn name_of(alloc: Global, number: u32) -> Result<Text, AllocError> {
    let name = format!(in alloc; "g{number}")?;
    Items::from_slice(alloc, name.as_bytes())
}

/// Signals of one declaration.
fn signals(alloc: Global) -> Result<Items<SignalDecl>, AllocError> {
    let decl = SignalDecl {
        name: Items::from_slice(alloc, b"s")?,
        range: Some(IndexRange {
            first: 0,
            last: 1023,
        }),
        direction: Direction::In,
        line: 1,
    };
    Items::of_one(alloc, decl)
}

/// The text of a group of a chain: all signals at its end, else the name of the group beside it.
fn text_of(alloc: Global, upwards: bool, number: u32, count: u32) -> Result<Text, AllocError> {
    let end = if upwards { 0 } else { count.saturating_sub(1) };
    if number == end {
        Items::from_slice(alloc, b"s")
    } else if upwards {
        name_of(alloc, number.saturating_sub(1))
    } else {
        name_of(alloc, number.saturating_add(1))
    }
}

/// So many groups.
fn groups(alloc: Global, upwards: bool, count: u32) -> Result<Items<GroupBlock>, AllocError> {
    let mut groups = Vec::new(alloc);
    for number in 0..count {
        let text = text_of(alloc, upwards, number, count)?;
        groups.push(GroupDecl {
            name: name_of(alloc, number)?,
            text: Quoted { text, line: 1 },
            line: 1,
        })?;
    }
    let block = GroupBlock {
        name: Items::from_vec(Vec::new(alloc)),
        groups: Items::from_vec(groups),
    };
    Items::of_one(alloc, block)
}

/// Blocks of signals and groups alone.
fn blocks(alloc: Global, upwards: bool, count: u32) -> Result<Blocks, AllocError> {
    Ok(Blocks {
        signals: signals(alloc)?,
        groups: groups(alloc, upwards, count)?,
        specs: Items::from_vec(Vec::new(alloc)),
        selectors: Items::from_vec(Vec::new(alloc)),
        timings: Items::from_vec(Vec::new(alloc)),
        scans: Items::from_vec(Vec::new(alloc)),
        macros: Items::from_vec(Vec::new(alloc)),
        procedures: Items::from_vec(Vec::new(alloc)),
        patterns: Items::from_vec(Vec::new(alloc)),
        bursts: Items::from_vec(Vec::new(alloc)),
        executives: Items::from_vec(Vec::new(alloc)),
    })
}

/// How many signals the first group has, once all are built.
fn built(alloc: Global, blocks: &Blocks) -> Option<usize> {
    let table = build(alloc, blocks).ok()?;
    let first = SigRef::Name(NameRef {
        name: name_of(alloc, 0).ok()?,
        range: None,
    });
    let signals = table.resolve(alloc, &first).ok()?;
    Some(signals.len())
}

/// Builds blocks, and prints what that took if it is asked to.
fn measure<R: Clock + Print + AllocGlobal>(rt: &R, blocks: &Blocks, timed: bool) -> io::Result<()> {
    let start = Instant::now(rt)?;
    let count = built(rt.alloc(), blocks);
    let taken = start.elapsed(rt)?;
    println!(rt; "{} signals", count.unwrap_or(0))?;
    if timed {
        println!(rt; "{} ms", taken.as_millis())?;
    }
    Ok(())
}

/// Measures groups by the words behind `groups`.
pub fn run<R: Clock + Print + AllocGlobal>(rt: &R, words: &[String]) -> io::Result<()> {
    let upwards = word(words, 0) != "down";
    match blocks(rt.alloc(), upwards, number(words, 1)) {
        Ok(blocks) => measure(rt, &blocks, words.len() > 2),
        Err(_) => println!(rt; "no memory"),
    }
}
