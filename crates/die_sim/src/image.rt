//! What is loaded into a socket: a netlist, its binding and its faults.

ghost use Rattle.std.specs.Prelude.{◌↔◌, IsTrue, length};
ghost use Rattle.die_sim.specs.Die.{IsOneFault};

use bench_net::Netlist;
use std::marker::Model;
use std::sync::Arc;
use tester_types::Items;

/// How a signal is bound: to no net, to an input that it drives, or to a net that it shows.
#[derive(Clone, Copy, Debug, PartialEq, Eq)]
pub enum Bind {
    Free,
    Input(u32),
    Output(u32),
}

/// One entry for each signal, in declared order.
pub type BindList = Items<Bind>;

/// How the signals are bound, and which of them is the clock: it has `Input` where it drives one, else `Free`.
#[derive(Debug, Drop)]
pub struct Binding {
    pub clock: Option<u16>,
    pub nets: BindList,
}

impl Binding {
    ghost use Rattle.std.specs.Prelude.{◌≡◌};
    ghost use Rattle.die_sim.specs.Die.{bind_at, is_clock, is_input, has_net};

    /// Whether the signal is the clock.
    pub fn is_clock(&self, signal: u16) -> bool
        ensures { result ≡ is_clock self.now.clock signal }
    {
        match self.clock {
            None => false,
            Some(clock) => clock == signal,
        }
    }

    /// How the signal is bound; past the last signal it is free.
    pub fn bind_at(&self, signal: u16) -> Bind
        ensures { result ≡ bind_at self.now.nets signal }
    {
        let binds = self.nets.as_slice();
        if usize::from(signal) < binds.len() {
            binds[usize::from(signal)]
        } else {
            Bind::Free
        }
    }

    /// Whether the signal is bound to an input.
    pub fn is_input(&self, signal: u16) -> bool
        ensures { result ≡ is_input (bind_at self.now.nets signal) }
    {
        match self.bind_at(signal) {
            Bind::Free => false,
            Bind::Input(_) => true,
            Bind::Output(_) => false,
        }
    }

    /// Whether the signal is bound to a net.
    pub fn has_net(&self, signal: u16) -> bool
        ensures { result ≡ has_net (bind_at self.now.nets signal) }
    {
        match self.bind_at(signal) {
            Bind::Free => false,
            Bind::Input(_) => true,
            Bind::Output(_) => true,
        }
    }
}

/// A net that is stuck: at 1 where `value` is true, else at 0.
#[derive(Clone, Copy, Debug, PartialEq, Eq)]
pub struct StuckAt {
    pub net: u32,
    pub value: bool,
}

/// Faults, no two of one net.
pub type FaultList = Items<StuckAt>;

/// Only tests call it: whether there is one fault at most, of a net of the netlist. An image may have such faults.
pub fn is_one_fault(net: &Netlist, faults: &[StuckAt]) -> bool
    ensures { IsTrue result ↔ IsOneFault (length net.now.net.drivers) faults.now }
{
    match faults {
        [] => true,
        [fault] => fault.net < net.nets(),
        _ => false,
    }
}

/// A netlist with its binding and its active faults. Each net of the binding and of the faults is a net of the netlist,
/// each net that a signal drives is an input, no two signals drive one input, and no two faults have one net.
#[derive(Drop)]
pub struct DieImage {
    pub net: Arc<Netlist>,
    pub bind: Arc<Binding>,
    pub faults: FaultList,
}

impl Model for DieImage {
    ghost use Rattle.std.specs.Arc.{arc_value};
    ghost use Rattle.die_sim.specs.Die.{Image, IsSound};

    ghost Value = { Image };

    ghost view = { λ i. record {
      circuit = arc_value i.net;
      clock = (arc_value i.bind).clock;
      binds =
          (arc_value i.bind).nets;
      faults = i.faults;
    } };

    ghost invariant = { λ i. IsSound (record {
      circuit = arc_value i.net;
      clock = (arc_value i.bind).clock;
      binds =
          (arc_value i.bind).nets;
      faults = i.faults;
    }) };
}
