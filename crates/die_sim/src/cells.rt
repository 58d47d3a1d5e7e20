//! The gates by their places in the netlist's order: what each of them gives, with the nets that it reads beside it.
ghost use Rattle.std.specs.Prelude.{◌≡◌, ℕ, ◌<◌, ◌≤◌, ◌+◌, ◌*◌, ◌^◌, true, length, All, IfOk, OnOk, Option, None, slice_index_or};
ghost use Rattle.text_bytes.specs.Limits.{most_inputs};
ghost use Rattle.bench_net.specs.Wiring.{pins_of, is_gate};
ghost use Rattle.bench_net.specs.Circuit.{IsWhole};
ghost use Rattle.die_sim.specs.Cells.{plain_row, row_for, with_row, HoldsPins, CanRead, cell_gives, no_cell, IsFront, AreWired, HaveRows, SamePins, AreStuck, AreCells};

use crate::gate::pair_level;
use crate::table::{Row, many_of, row_of, single_row};
use bench_net::{Driver, Netlist};
use std::alloc::{AllocError, Global};
use tester_types::Level;

/// A gate: its row, and the first and the last of two nets or of one that it reads, or from where to where its nets
/// stand among the pins.
#[derive(Clone, Copy, Debug, PartialEq, Eq)]
pub(crate) enum Cell {
    Pair(Row, u32, u32),
    Many(Row, u32, u32),
}

/// A netlist's gates by their places, and the pins of those that read more than two nets.
#[derive(Drop)]
pub(crate) struct Cells {
    pub(crate) cells: Vec<Cell>,
    pub(crate) pins: Vec<u32>,
}

/// The nets that a gate reads.
fn pins_of(driver: &Driver) -> &[u32]
    ensures { result.now ≡ pins_of driver.now }
{
    match driver {
        Driver::Gate(_, pins) => pins.as_slice(),
        _ => &[],
    }
}

/// The row of a gate that isn't stuck.
fn plain_row(driver: &Driver) -> Row
    ensures { result ≡ plain_row driver.now }
{
    match driver {
        Driver::Gate(kind, pins) => {
            if pins.len() == 1 {
                single_row(row_of(*kind))
            } else {
                row_of(*kind)
            }
        }
        _ => Row::Low,
    }
}

/// The row of a gate whose net is stuck at this level, if it is.
fn row_for(fixed: Option<Level>, driver: &Driver) -> Row
    ensures { result ≡ row_for fixed driver.now }
{
    match fixed {
        None => plain_row(driver),
        Some(Level::Zero) => Row::Low,
        Some(_) => Row::High,
    }
}

/// A gate with another row.
fn with_row(cell: Cell, row: Row) -> Cell
    ensures { result ≡ with_row cell row }
{
    match cell {
        Cell::Pair(_, first, second) => Cell::Pair(row, first, second),
        Cell::Many(_, from, to) => Cell::Many(row, from, to),
    }
}

/// What a gate gives.
fn cell_level(cell: Cell, pins: &[u32], levels: &[Level]) -> Level
    requires { CanRead (length levels.now) pins.now cell }
    ensures { result ≡ cell_gives pins.now cell levels.now }
{
    match cell {
        Cell::Pair(row, first, second) => pair_level(row, levels, first, second),
        Cell::Many(row, from, to) => many_of(row, levels, &pins[from as usize..to as usize]),
    }
}

/// A gate that reads these nets, which stand among the pins where they are more than two.
fn cell_of(pins: &mut Vec<u32>, nets: &[u32]) -> Result<Cell, AllocError>
    requires some { 0 < length nets.now }
    requires few { length pins.old.items + length nets.now < 2 ^ 32 }
    ensures holds { IfOk result (λ cell. HoldsPins pins.new.items nets.now cell) }
    ensures front { OnOk result (IsFront pins.old.items pins.new.items (length nets.now)) }
{
    if nets.len() <= 2 {
        return Ok(Cell::Pair(Row::Low, nets[0], nets[nets.len() - 1]));
    }
    let from = pins.len() as u32;
    pins.extend_from_slice(nets)?;
    Ok(Cell::Many(Row::Low, from, pins.len() as u32))
}

impl Cells {
    /// The gates of a netlist, with no row of their own yet.
    pub(crate) fn wired(alloc: Global, net: &Netlist) -> Result<Cells, AllocError>
        ensures { IfOk result (λ c. AreWired net.now c.cells.items c.pins.items) }
    {
        let mut cells = Vec::new(alloc);
        let mut pins = Vec::new(alloc);
        for gate in net.order() {
            let cell = cell_of(&mut pins, pins_of(net.driver(*gate)))?;
            cells.push(cell)?;
        }
        Ok(Cells { cells, pins })
    }

    /// Each gate gets its row: of its function, or of its level where its net is stuck.
    pub(crate) fn put_rows(&mut self, net: &Netlist, fixed: &[Option<Level>])
        requires fixed { length fixed.now ≡ length net.now.net.names }
        requires stuck { AreStuck fixed.now }
        requires wired { AreWired net.now self.old.cells.items self.old.pins.items }
        ensures { AreCells net.now fixed.now self.new.cells.items self.new.pins.items }
    {
        put_rows(net, fixed, &mut self.cells);
    }

    /// What the gate at a place gives.
    pub(crate) fn level(&self, place: usize, levels: &[Level]) -> Level
        requires within { place < length self.now.cells.items }
        requires reads { CanRead (length levels.now) self.now.pins.items
            (slice_index_or self.now.cells.items place no_cell) }
        ensures { result
            ≡ cell_gives self.now.pins.items (slice_index_or self.now.cells.items place no_cell) levels.now }
    {
        cell_level(self.cells[place], self.pins.as_slice(), levels)
    }
}

/// Gives each gate its row.
fn put_rows(net: &Netlist, fixed: &[Option<Level>], cells: &mut Vec<Cell>)
    requires fixed { length fixed.now ≡ length net.now.net.names }
    requires count { length cells.old.items ≡ length net.now.order }
    ensures rows { HaveRows net.now fixed.now cells.new.items (length net.now.order) }
    ensures pins { SamePins cells.old.items cells.new.items }
{
    for (place, gate) in net.order().iter().enumerate() {
        let row = row_for(fixed[*gate as usize], net.driver(*gate));
        cells[place] = with_row(cells[place], row);
    }
}
