//! 64 dies of one netlist at once.
ghost use Rattle.std.specs.Prelude.{◌≡◌, ℕ, ◌<◌, ◌≤◌, ◌∷◌, [], length, IfOk, not, slice_index_or};
ghost use Rattle.std.specs.Int.{bit_at};
ghost use Rattle.die_sim.specs.Die.{Device, State, IsOfNet, fixed_of, level_of};
ghost use Rattle.die_sim.specs.Stepped.{first_state, stepped};
ghost use Rattle.die_sim.specs.Walk.{AreFaultsWithin};
ghost use Rattle.die_sim.specs.declared.image.StuckAt.{StuckAt};
ghost use Rattle.strobe_check.specs.Look.{is_met};
ghost use Rattle.die_words.specs.Lane.{bit};
ghost use Rattle.die_words.specs.Lanes.{IsLaneOf};

use crate::board::{failing_net, load_nets, step_nets};
use crate::capture::Registers;
use crate::drives::clock_after;
use crate::flat::Gates;
use crate::nets::NetWords;
use crate::wiring::Wired;
use crate::word::failing_all;
use bench_net::Netlist;
use die_sim::{Bind, Binding, DieImage, Readers, StuckAt};
use std::alloc::Global;
use std::marker::Model;
use std::sync::Arc;
use tester_types::{Drive, Level, Look, NoMemory};

/// 64 dies of one netlist, driven alike, each with a fault of its own.
#[derive(Drop)]
pub struct DieWords {
    net: Arc<Netlist>,
    bind: Arc<Binding>,
    wired: Wired,
    clock: Level,
    nets: NetWords,
}

impl Model for DieWords {
    ghost use Rattle.std.specs.Arc.{arc_value};
    ghost use Rattle.die_words.specs.Lanes.{Lanes};
    ghost use Rattle.die_words.specs.Board.{lanes_at, IsBoard, FitNets};

    ghost Value = { Lanes };

    ghost view = { λ d. lanes_at (arc_value d.net) (arc_value d.bind) d.clock d.nets };

    ghost invariant = { λ d. IsBoard (arc_value d.net) (arc_value d.bind) d.wired × FitNets (arc_value d.net) d.nets };
}

impl DieWords {
    /// Words for the dies of a netlist with its binding. Nothing is said yet of what stands in their lanes.
    pub fn make(alloc: Global, die: &DieImage) -> Result<DieWords, NoMemory>
        ensures { IfOk result (λ d. d.image ≡ record die.now { faults = [] }) }
    {
        let net = Arc::try_clone(&die.net)?;
        let bind = Arc::try_clone(&die.bind)?;
        let gates = Gates::of_net(alloc, &net)?;
        let registers = Registers::of_net(alloc, &net)?;
        let nets = NetWords::of_net(alloc, &net)?;
        let readers = Readers::new(alloc, &net, &nets.pending)?;
        Ok(DieWords {
            net,
            bind,
            wired: Wired {
                gates,
                registers,
                readers,
            },
            clock: Level::X,
            nets,
        })
    }

    /// Loads a die for each of these faults, each in a lane of its own.
    pub fn load(&mut self, faults: &[StuckAt])
        requires few { length faults.now ≤ 64 }
        requires within { AreFaultsWithin (length self.old.image.circuit.net.names) faults.now }
        ensures image { self.new.image ≡ self.old.image }
        ensures lanes { (k : ℕ) (d : StuckAt) (device : Device) → k < length faults.now
            → IsOfNet device self.old.image
            → device.fixed ≡ fixed_of (length self.old.image.circuit.net.names) (slice_index_or faults.now k d ∷ [])
            → IsLaneOf self.new k device (first_state device) }
    {
        load_nets(&self.net, &self.bind, &self.wired, faults, &mut self.nets);
        self.clock = Level::X;
    }

    /// One moment: the flip-flops capture where the clock rises, the inputs take their levels, and all settles.
    pub fn step(&mut self, drives: &[(u16, Drive)])
        ensures image { self.new.image ≡ self.old.image }
        ensures lanes { (k : ℕ) (device : Device) (state : State) → k < 64 → IsLaneOf self.old k device state
            → IsLaneOf self.new k device (stepped device state drives.now) }
    {
        let clock = clock_after(&self.bind, self.clock, drives);
        step_nets(
            &self.net,
            &self.bind,
            &self.wired,
            self.clock,
            clock,
            drives,
            &mut self.nets,
        );
        self.clock = clock;
    }

    /// The lanes of the dies that don't meet a look at a signal.
    pub fn failing(&self, signal: u16, look: Look) -> u64
        ensures { (k : ℕ) (device : Device) (state : State) → k < 64 → IsLaneOf self.now k device state
            → bit_at result k ≡ bit (not (is_met look (level_of device state signal))) }
    {
        match self.bind.bind_at(signal) {
            Bind::Free => failing_all(look, self.clock),
            Bind::Input(n) => failing_net(&self.nets, n, look),
            Bind::Output(n) => failing_net(&self.nets, n, look),
        }
    }
}
