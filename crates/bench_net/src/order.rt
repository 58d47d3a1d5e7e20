//! The gates that read each net, and the gates in an order in which each comes after the gates that
//! it reads.
ghost use Rattle.std.specs.Prelude.{◌≡◌, ◌==◌, ℕ, ◌<◌, ◌≤◌, ◌+◌, ◌^◌, List, [], map, length, slice_index, slice_index_or, All, count_by, take, drop, IfOk, OnOk, replicate};
ghost use Rattle.text_bytes.specs.Limits.{most_nets};
ghost use Rattle.bench_net.specs.Wiring.{driver_at, gate_at, pins_at, pins_of, is_gate, AreReaders, IsOrder};
ghost use Rattle.bench_net.specs.Sorting.{AreWithin, AddsReader, AddsReaders, IsSorted, AreCounts, AreReadyBelow, with_ready, CanSettle, lowered, joined, walked};

use crate::gate::Driver;
use crate::nets::Nets;
use std::alloc::{AllocError, Global};

/// The nets that a gate reads, none of another driver.
fn pins_of(driver: &Driver) -> &[u32]
    ensures { result.now ≡ pins_of driver.now }
{
    match driver {
        Driver::Gate(_, pins) => pins.as_slice(),
        _ => &[],
    }
}

/// The nets that a net's gate reads, none where no gate drives the net.
fn pins_at(drivers: &[Driver], net: usize) -> &[u32]
    requires { net < length drivers.now }
    ensures { result.now ≡ pins_at drivers.now net }
{
    pins_of(&drivers[net])
}

/// Whether a driver is a gate.
fn is_gate(driver: &Driver) -> bool
    ensures { result ≡ is_gate driver.now }
{
    matches!(driver, Driver::Gate(_, _))
}

/// Whether a gate drives the net.
fn gate_at(drivers: &[Driver], net: usize) -> bool
    requires { net < length drivers.now }
    ensures { result ≡ gate_at drivers.now net }
{
    is_gate(&drivers[net])
}

/// Puts a gate among the readers of a net.
fn add_reader(readers: &mut Vec<Nets>, net: u32, gate: u32) -> Result<(), AllocError>
    requires { net < length readers.old.items }
    ensures { OnOk result (AddsReader readers.old.items readers.new.items net gate) }
{
    readers[net as usize].push(gate)
}

/// Puts a gate among the readers of each net that it reads.
fn add_readers(readers: &mut Vec<Nets>, pins: &[u32], gate: u32) -> Result<(), AllocError>
    requires { AreWithin (length readers.old.items) pins.now }
    ensures { OnOk result (AddsReaders readers.old.items readers.new.items pins.now gate) }
{
    for pin in pins {
        add_reader(readers, *pin, gate)?;
    }
    Ok(())
}

/// As many lists of no nets.
fn no_readers(alloc: Global, count: usize) -> Result<Vec<Nets>, AllocError>
    ensures { IfOk result (λ readers. readers.items ≡ replicate count []) }
{
    let mut readers = Vec::new(alloc);
    for _ in 0..count {
        readers.push(Nets::new(alloc))?;
    }
    Ok(readers)
}

/// For each net the gates that read it, a gate as often as it does.
pub(crate) fn readers(alloc: Global, drivers: &[Driver]) -> Result<Vec<Nets>, AllocError>
    requires few { length drivers.now ≤ most_nets }
    requires within { (n : ℕ) → n < length drivers.now → AreWithin (length drivers.now) (pins_at drivers.now n) }
    ensures { IfOk result (λ readers. AreReaders drivers.now readers.items) }
{
    let mut readers = no_readers(alloc, drivers.len())?;
    for gate in 0..drivers.len() {
        add_readers(&mut readers, pins_at(drivers, gate), gate as u32)?;
    }
    Ok(readers)
}

/// How many of the nets a gate drives.
fn gates_among(drivers: &[Driver], nets: &[u32]) -> usize
    requires { AreWithin (length drivers.now) nets.now }
    ensures { result ≡ count_by (gate_at drivers.now) nets.now }
{
    let mut count = 0;
    for net in nets {
        if gate_at(drivers, *net as usize) {
            count += 1;
        }
    }
    count
}

/// For each net how many of the nets that its gate reads a gate drives.
fn gate_counts(alloc: Global, drivers: &[Driver]) -> Result<Vec<usize>, AllocError>
    requires { (n : ℕ) → n < length drivers.now → AreWithin (length drivers.now) (pins_at drivers.now n) }
    ensures { IfOk result (λ left. AreCounts drivers.now left.items (length drivers.now)) }
{
    let mut left = Vec::new(alloc);
    for net in 0..drivers.len() {
        left.push(gates_among(drivers, pins_at(drivers, net)))?;
    }
    Ok(left)
}

/// Puts a net behind the others, if a gate that waits for none drives it.
fn add_ready(
    order: &mut Vec<u32>,
    drivers: &[Driver],
    left: &[usize],
    net: usize,
) -> Result<(), AllocError>
    requires within { net < length drivers.now }
    requires same { length left.now ≡ length drivers.now }
    requires small { net < 2 ^ 32 }
    ensures { OnOk result (order.new.items ≡ with_ready drivers.now left.now order.old.items net) }
{
    if gate_at(drivers, net) && left[net] == 0 {
        order.push(net as u32)?;
    }
    Ok(())
}

/// The gates that wait for none.
fn ready_gates(alloc: Global, drivers: &[Driver], left: &[usize]) -> Result<Vec<u32>, AllocError>
    requires few { length drivers.now ≤ most_nets }
    requires same { length left.now ≡ length drivers.now }
    ensures { IfOk result (λ order. AreReadyBelow drivers.now left.now order.items (length drivers.now)) }
{
    let mut order = Vec::new(alloc);
    for net in 0..drivers.len() {
        add_ready(&mut order, drivers, left, net)?;
    }
    Ok(order)
}

/// One net fewer for which a gate waits: the gate goes behind the others where it waits for none
/// then.
fn settle_one(left: &mut Vec<usize>, order: &mut Vec<u32>, gate: u32) -> Result<(), AllocError>
    requires within { gate < length left.old.items }
    requires waits { 0 < slice_index left.old.items gate }
    ensures left { OnOk result (left.new.items ≡ lowered left.old.items gate) }
    ensures order { OnOk result (order.new.items ≡ joined left.old.items order.old.items gate) }
{
    let count = left[gate as usize];
    left[gate as usize] = count - 1;
    if count == 1 {
        order.push(gate)?;
    }
    Ok(())
}

/// One net fewer for each of these gates.
fn settle(left: &mut Vec<usize>, order: &mut Vec<u32>, gates: &[u32]) -> Result<(), AllocError>
    requires { CanSettle left.old.items gates.now }
    ensures { OnOk result ((left.new.items, order.new.items)
        ≡ walked left.old.items order.old.items gates.now) }
{
    let mut rest = gates;
    while let [gate, more @ ..] = rest {
        settle_one(left, order, *gate)?;
        rest = more;
    }
    Ok(())
}

/// The gates that read a net.
fn readers_at(readers: &[Nets], net: usize) -> &[u32]
    requires { net < length readers.now }
    ensures { result.now ≡ slice_index_or readers.now net [] }
{
    readers[net].as_slice()
}

/// The gates that wait for no gate in the end, in an order, and for each net how many of its gate's
/// nets stay waited for.
pub(crate) fn sorted(
    alloc: Global,
    drivers: &[Driver],
    readers: &[Nets],
) -> Result<(Vec<u32>, Vec<usize>), AllocError>
    requires few { length drivers.now ≤ most_nets }
    requires within { (n : ℕ) → n < length drivers.now → AreWithin (length drivers.now) (pins_at drivers.now n) }
    requires readers { AreReaders drivers.now readers.now }
    ensures { IfOk result (λ sorted. IsSorted drivers.now sorted.1.items sorted.0.items) }
{
    let mut left = gate_counts(alloc, drivers)?;
    let mut order = ready_gates(alloc, drivers, left.as_slice())?;
    let mut at = 0;
    while at < order.len() {
        let gates = readers_at(readers, order[at] as usize);
        settle(&mut left, &mut order, gates)?;
        at += 1;
    }
    Ok((order, left))
}
