//! What the lines say of each net, by the nets' numbers.
ghost use Rattle.std.specs.Prelude.{◌≡◌, None, Some, true, false, if◌then◌else◌, length, map, fold, replicate, slice_index_or, slice_set, [], IfOk};
ghost use Rattle.text_bytes.specs.Texts.{key_texts};
ghost use Rattle.bench_net.specs.Fault.{Answers};
ghost use Rattle.bench_net.specs.Numbers.{driven_net, shown_net, with_mark, twice_at, IsTwice, AreMarked, with_driver, placed};
ghost use Rattle.bench_net.specs.declared.gate.Driver.TheVariants.{Input};

use crate::fault::{NetFault, NetName};
use crate::gate::Driver;
use crate::numbers::Numbered;
use indexmap::IndexSet;
use std::alloc::{AllocError, Global};

/// The net that a line gives a driver.
fn driven_net(line: &Numbered) -> Option<u32>
    ensures { result ≡ driven_net line.now }
{
    match line {
        Numbered::Drives(net, _) => Some(*net),
        _ => None,
    }
}

/// The net that a line names as an output.
fn shown_net(line: &Numbered) -> Option<u32>
    ensures { result ≡ shown_net line.now }
{
    match line {
        Numbered::Shows(net) => Some(*net),
        _ => None,
    }
}

/// Marks a net; where it is marked already, it is the answer.
fn mark_at(marks: &mut Vec<bool>, net: u32) -> Option<u32>
    ensures marks { marks.new.items ≡ slice_set marks.old.items net true }
    ensures twice { result ≡ if slice_index_or marks.old.items net false then Some net else None }
{
    let place = net as usize;
    if place >= marks.len() {
        return None;
    }
    if marks[place] {
        return Some(net);
    }
    marks[place] = true;
    None
}

/// Marks a net, if it is one; where it is marked already, it is the answer.
fn mark(marks: &mut Vec<bool>, net: Option<u32>) -> Option<u32>
    ensures marks { marks.new.items ≡ with_mark marks.old.items net }
    ensures twice { result ≡ twice_at marks.old.items net }
{
    match net {
        Some(net) => mark_at(marks, net),
        None => None,
    }
}

/// The name of the net of a number.
fn name_at(names: &IndexSet<Vec<u8>>, net: u32) -> &[u8]
    ensures { result.now ≡ slice_index_or (key_texts names.now.keys) net [] }
{
    match names.get_index(net as usize) {
        Some(name) => name.as_slice(),
        None => &[],
    }
}

/// Which nets the lines give a driver, or the first that has two.
pub(crate) fn driven_nets(
    alloc: Global,
    names: &IndexSet<Vec<u8>>,
    lines: &[Numbered],
) -> Result<Vec<bool>, NetFault>
    ensures { Answers (λ driven. AreMarked (length names.now.keys) lines.now driven.items)
        (IsTwice (length names.now.keys) (key_texts names.now.keys) lines.now) result }
{
    let mut driven = vec![in alloc; false; names.len()]?;
    let mut rest = lines;
    while let [line, more @ ..] = rest {
        if let Some(net) = mark(&mut driven, driven_net(line)) {
            return Err(NetFault::Twice(NetName::from_slice(alloc, name_at(names, net))?));
        }
        rest = more;
    }
    Ok(driven)
}

/// Which of so many nets the lines name as outputs.
fn outputs(alloc: Global, count: usize, lines: &[Numbered]) -> Result<Vec<bool>, AllocError>
    ensures { IfOk result (λ outputs. outputs.items
        ≡ fold with_mark (replicate count false) (map shown_net lines.now)) }
{
    let mut outputs = vec![in alloc; false; count]?;
    let mut rest = lines;
    while let [line, more @ ..] = rest {
        mark(&mut outputs, shown_net(line));
        rest = more;
    }
    Ok(outputs)
}

/// As many nets that nothing inside drives.
fn inputs(alloc: Global, count: usize) -> Result<Vec<Driver>, AllocError>
    ensures { IfOk result (λ drivers. drivers.items ≡ replicate count Input) }
{
    let mut drivers = Vec::new(alloc);
    for _ in 0..count {
        drivers.push(Driver::Input)?;
    }
    Ok(drivers)
}

/// Puts the driver that a line gives a net in the place of the one that it had.
fn drive(drivers: &mut Vec<Driver>, line: Numbered)
    ensures { drivers.new.items ≡ with_driver drivers.old.items line }
{
    if let Numbered::Drives(net, driver) = line {
        let place = net as usize;
        if place < drivers.len() {
            drivers[place] = driver;
        }
    }
}

/// What drives each of so many nets, by the first line that gives it a driver.
fn drivers(alloc: Global, count: usize, mut lines: Vec<Numbered>) -> Result<Vec<Driver>, AllocError>
    ensures { IfOk result (λ drivers. drivers.items ≡ placed (replicate count Input) lines.items) }
{
    let mut drivers = inputs(alloc, count)?;
    while let Some(line) = lines.pop() {
        drive(&mut drivers, line);
    }
    Ok(drivers)
}

/// What drives each of so many nets, and whether it is an output.
pub(crate) fn tables(
    alloc: Global,
    count: usize,
    lines: Vec<Numbered>,
) -> Result<(Vec<Driver>, Vec<bool>), AllocError>
    ensures drivers { IfOk result (λ made. made.0.items ≡ placed (replicate count Input) lines.items) }
    ensures outputs { IfOk result (λ made. made.1.items
        ≡ fold with_mark (replicate count false) (map shown_net lines.items)) }
{
    let outputs = outputs(alloc, count, lines.as_slice())?;
    let drivers = drivers(alloc, count, lines)?;
    Ok((drivers, outputs))
}
