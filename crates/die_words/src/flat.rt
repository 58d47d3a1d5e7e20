//! A netlist's gates in its order, each with the nets that it reads beside it.
ghost use Rattle.std.specs.Prelude.{◌≡◌, ◌+◌, ◌^◌, ◌<◌, true, length, IfOk, OnOk};
ghost use Rattle.bench_net.specs.declared.gate.Driver.TheVariants.{Gate};
ghost use Rattle.bench_net.specs.Wiring.{is_gate, pins_of};
ghost use Rattle.die_sim.specs.Cells.{IsFront};
ghost use Rattle.die_words.specs.Flat.{IsFlat, AreFlat};

use bench_net::{Driver, GateKind, Netlist};
use std::alloc::{AllocError, Global};

/// A gate: the one net or the two that it reads, or from where to where its nets stand among the pins.
#[derive(Clone, Copy, Debug, PartialEq, Eq)]
pub(crate) enum Flat {
    One(GateKind, u32),
    Two(GateKind, u32, u32),
    Many(GateKind, u32, u32),
}

/// A netlist's gates in its order, and the pins of those that read more than two nets.
#[derive(Drop)]
pub(crate) struct Gates {
    pub(crate) gates: Vec<Flat>,
    pub(crate) pins: Vec<u32>,
}

/// A gate that reads these nets, which stand among the pins where they are more than two.
fn flat_of(pins: &mut Vec<u32>, kind: GateKind, nets: &[u32]) -> Result<Flat, AllocError>
    requires few { length pins.old.items + length nets.now < 2 ^ 32 }
    ensures flat { IfOk result (λ gate. IsFlat (Gate kind nets.now) pins.new.items gate) }
    ensures front { OnOk result (IsFront pins.old.items pins.new.items (length nets.now)) }
{
    match nets {
        [net] => Ok(Flat::One(kind, *net)),
        [first, last] => Ok(Flat::Two(kind, *first, *last)),
        _ => many_of(pins, kind, nets),
    }
}

/// A gate whose nets stand among the pins.
fn many_of(pins: &mut Vec<u32>, kind: GateKind, nets: &[u32]) -> Result<Flat, AllocError>
    requires few { length pins.old.items + length nets.now < 2 ^ 32 }
    ensures flat { IfOk result (λ gate. IsFlat (Gate kind nets.now) pins.new.items gate) }
    ensures front { OnOk result (IsFront pins.old.items pins.new.items (length nets.now)) }
{
    let from = pins.len() as u32;
    pins.extend_from_slice(nets)?;
    Ok(Flat::Many(kind, from, pins.len() as u32))
}

/// A gate with the nets that it reads beside it.
fn flat_gate(pins: &mut Vec<u32>, driver: &Driver) -> Result<Flat, AllocError>
    requires gate { is_gate driver.now ≡ true }
    requires few { length pins.old.items + length (pins_of driver.now) < 2 ^ 32 }
    ensures flat { IfOk result (λ gate. IsFlat driver.now pins.new.items gate) }
    ensures front { OnOk result (IsFront pins.old.items pins.new.items (length (pins_of driver.now))) }
{
    match driver {
        Driver::Gate(kind, nets) => flat_of(pins, *kind, nets.as_slice()),
        _ => unreachable!(),
    }
}

impl Gates {
    /// The gates of a netlist.
    pub(crate) fn of_net(alloc: Global, net: &Netlist) -> Result<Gates, AllocError>
        ensures { IfOk result (λ g. AreFlat net.now g.gates.items g.pins.items) }
    {
        let mut gates = Vec::new(alloc);
        let mut pins = Vec::new(alloc);
        for gate in net.order() {
            let flat = flat_gate(&mut pins, net.driver(*gate))?;
            gates.push(flat)?;
        }
        Ok(Gates { gates, pins })
    }
}
