//! A die as it is: what its inputs and flip-flops keep, and the levels of all nets.
ghost use Rattle.std.specs.Prelude.{◌≡◌, ℕ, ◌<◌, ◌≤◌, ◌+◌, ◌⊎◌, Bool, true, length, IfOk, Option, None, fold, replicate, count_by, map, unwrap_or, slice_index_or, take};
ghost use Rattle.tester_types.specs.declared.level.Level.TheVariants.{X};
ghost use Rattle.bench_net.specs.Circuit.{IsWhole};
ghost use Rattle.die_sim.specs.Die.{device_of, IsOfNet, stuck, with_fault, fixed_of, is_clock, bind_at, IsBoundTo, IsFresh, level_of};
ghost use Rattle.die_sim.specs.Moment.{AreDrives, IsStep};
ghost use Rattle.die_sim.specs.Spread.{IsSpread};
ghost use Rattle.die_sim.specs.Cells.{AreStuck, AreCells};
ghost use Rattle.die_sim.specs.Walk.{AreFaultsWithin};

use crate::cells::Cells;
use crate::image::{Bind, Binding, DieImage, StuckAt};
use crate::moment::{capture_each, clock_after, clock_edge, put_all};
use crate::pending::Pending;
use crate::readers::Readers;
use crate::settle::{activate_all, refresh_driven, refresh_each, settle_first, walk};
use crate::steps::Steps;
use crate::waiting::Waiting;
use crate::wiring::{Nets, Wiring};
use bench_net::Netlist;
use std::alloc::{AllocError, Global};
use std::marker::Model;
use std::sync::Arc;
use tester_types::{Drive, Level, NoMemory};

/// A die as it is after each moment.
#[derive(Drop)]
pub struct DieState {
    wiring: Wiring,
    clock: Level,
    held: Vec<Level>,
    nets: Nets,
    list: Vec<u32>,
}

impl Model for DieState {
    ghost use Rattle.die_sim.specs.Die.{Die};
    ghost use Rattle.die_sim.specs.Kept.{device_in, IsKept};

    ghost Value = { Die };

    ghost view = { λ d. record {
      device = device_in d.wiring;
      state = record
          { clock = d.clock; held = d.held.items; levels = d.nets.levels.items };
    } };

    ghost invariant = { λ d. IsKept d.wiring d.held.items d.nets d.list.items };
}

impl DieState {
    /// A die as it is loaded: its clock, inputs and flip-flops are unknown, and all its nets are settled.
    pub fn make(alloc: Global, die: &DieImage) -> Result<DieState, NoMemory>
        ensures { IfOk result (λ d. (d.device ≡ device_of die.now) × IsFresh d.device d.state) }
    {
        let net = Arc::try_clone(&die.net)?;
        let bind = Arc::try_clone(&die.bind)?;
        let count = net.nets();
        let fixed = fixed_levels(alloc, count, die.faults.as_slice())?;
        let held = unknown_levels(alloc, count)?;
        let levels = first_levels(alloc, fixed.as_slice())?;
        let pending = Pending::all(alloc, &net)?;
        let mut waiting = Waiting::new(alloc, &net)?;
        let list = no_nets(alloc, count)?;
        let readers = Readers::new(alloc, &net, &pending)?;
        let cells = gates_of(alloc, &net, fixed.as_slice())?;
        waiting.wake_all();
        let wiring = Wiring {
            net,
            bind,
            cells,
            readers,
            fixed,
        };
        let mut nets = Nets {
            levels,
            pending,
            waiting,
        };
        settle_first(&wiring, held.as_slice(), &mut nets);
        Ok(DieState {
            wiring,
            clock: Level::X,
            held,
            nets,
            list,
        })
    }

    /// Lays another image of the same netlist and binding: a die as `make` makes it, without memory.
    pub fn lay(&mut self, die: &DieImage)
        requires { IsOfNet self.old.device die.now }
        ensures device { self.new.device ≡ device_of die.now }
        ensures fresh { IsFresh self.new.device self.new.state }
    {
        let net: &Netlist = &self.wiring.net;
        fix_anew(&mut self.wiring.fixed, die.faults.as_slice());
        let fixed = self.wiring.fixed.as_slice();
        self.wiring.cells.put_rows(net, fixed);
        forget(&mut self.held);
        put_first(fixed, &mut self.nets.levels);
        activate_all(net, &mut self.nets.pending);
        self.nets.waiting.wake_all();
        self.clock = Level::X;
        let held = self.held.as_slice();
        settle_first(&self.wiring, held, &mut self.nets);
    }

    /// One moment: the flip-flops capture where the clock rises, the inputs take their levels, and all settles. Each
    /// evaluation of a gate is one step.
    pub fn apply<L>(&mut self, drives: &[(u16, Drive)], steps: &mut Steps<L>)
        requires { AreDrives self.old.device drives.now }
        ensures device { self.new.device ≡ self.old.device }
        ensures step { IsStep self.old.device self.old.state self.new.state drives.now }
        ensures rises { steps.old ≤ steps.new }
        // The gates reachable from the inputs and flip-flops whose levels changed are the least such set.
        ensures bound { (set : ℕ → Bool)
            → IsSpread self.old.device.circuit.net.drivers self.old.state.levels self.new.state.levels set
            → steps.new ≤ steps.old + count_by set self.old.device.circuit.order }
    {
        let evaluations = self.step(drives);
        steps.add(evaluations);
    }

    /// One moment. Answers how many gates were evaluated.
    fn step(&mut self, drives: &[(u16, Drive)]) -> usize
        ensures device { self.new.device ≡ self.old.device }
        ensures step { IsStep self.old.device self.old.state self.new.state drives.now }
        ensures bound { (set : ℕ → Bool)
            → IsSpread self.old.device.circuit.net.drivers self.old.state.levels self.new.state.levels set
            → result ≤ count_by set self.old.device.circuit.order }
    {
        let net: &Netlist = &self.wiring.net;
        let bind: &Binding = &self.wiring.bind;
        let clock = clock_after(bind, self.clock, drives);
        let edge = clock_edge(self.clock, clock);
        let count = self.nets.waiting.take(edge, &mut self.list);
        let list = &self.list[..count];
        let before = self.nets.levels.as_slice();
        capture_each(net, edge, list, before, &mut self.held);
        put_all(&mut self.held, bind, drives);
        self.clock = clock;
        let held = self.held.as_slice();
        refresh_each(&self.wiring, held, &mut self.nets, list);
        refresh_driven(&self.wiring, held, &mut self.nets, drives);
        walk(&self.wiring, held, &mut self.nets)
    }

    /// The level of a signal that is bound to a net, or is the clock.
    pub fn level(&self, signal: u16) -> Level
        requires { (is_clock self.now.device.clock signal ≡ true) ⊎ IsBoundTo (bind_at self.now.device.binds signal) }
        ensures { result ≡ level_of self.now.device self.now.state signal }
    {
        match self.wiring.bind.bind_at(signal) {
            Bind::Free => self.clock,
            Bind::Input(n) => self.nets.levels[n as usize],
            Bind::Output(n) => self.nets.levels[n as usize],
        }
    }
}

/// The level at which a net is stuck.
fn stuck(value: bool) -> Level
    ensures { result ≡ stuck value }
{
    if value { Level::One } else { Level::Zero }
}

/// No fixed level for each net.
fn unfixed(alloc: Global, nets: u32) -> Result<Vec<Option<Level>>, AllocError>
    ensures { IfOk result (λ fixed. fixed.items ≡ replicate nets None) }
{
    vec![in alloc; None; nets as usize]
}

/// Fixes the levels of nets at which these faults are, and no others.
fn fix_anew(fixed: &mut Vec<Option<Level>>, faults: &[StuckAt])
    requires { AreFaultsWithin (length fixed.old.items) faults.now }
    ensures all { fixed.new.items ≡ fixed_of (length fixed.old.items) faults.now }
    ensures stuck { AreStuck fixed.new.items }
    ensures count { length fixed.new.items ≡ length fixed.old.items }
{
    fixed.as_mut_slice().fill(None);
    fix_each(fixed, faults);
}

/// Fixes the levels of nets at which these faults are, where none is fixed.
fn fix_each(fixed: &mut Vec<Option<Level>>, faults: &[StuckAt])
    requires none { fixed.old.items ≡ replicate (length fixed.old.items) None }
    requires within { AreFaultsWithin (length fixed.old.items) faults.now }
    ensures all { fixed.new.items ≡ fixed_of (length fixed.old.items) faults.now }
    ensures stuck { AreStuck fixed.new.items }
    ensures count { length fixed.new.items ≡ length fixed.old.items }
{
    for fault in faults {
        fixed[fault.net as usize] = Some(stuck(fault.value));
    }
}

/// For each net the level at which a fault fixes it.
fn fixed_levels(
    alloc: Global,
    nets: u32,
    faults: &[StuckAt],
) -> Result<Vec<Option<Level>>, AllocError>
    requires { AreFaultsWithin nets faults.now }
    ensures all { IfOk result (λ fixed. fixed.items ≡ fixed_of nets faults.now) }
    ensures stuck { IfOk result (λ fixed. AreStuck fixed.items) }
    ensures count { IfOk result (λ fixed. length fixed.items ≡ nets) }
{
    let mut fixed = unfixed(alloc, nets)?;
    fix_each(&mut fixed, faults);
    Ok(fixed)
}

/// X for each net.
fn unknown_levels(alloc: Global, nets: u32) -> Result<Vec<Level>, AllocError>
    ensures { IfOk result (λ levels. levels.items ≡ replicate nets X) }
{
    vec![in alloc; Level::X; nets as usize]
}

/// The gates of a netlist whose nets are stuck at these levels.
fn gates_of(alloc: Global, net: &Netlist, fixed: &[Option<Level>]) -> Result<Cells, AllocError>
    requires count { length fixed.now ≡ length net.now.net.names }
    requires stuck { AreStuck fixed.now }
    ensures { IfOk result (λ c. AreCells net.now fixed.now c.cells.items c.pins.items) }
{
    let mut cells = Cells::wired(alloc, net)?;
    cells.put_rows(net, fixed);
    Ok(cells)
}

/// A list with room for so many nets.
fn no_nets(alloc: Global, count: u32) -> Result<Vec<u32>, AllocError>
    ensures { IfOk result (λ nets. length nets.items ≡ count) }
{
    vec![in alloc; 0; count as usize]
}

/// X for each net, as many as there are.
fn forget(held: &mut Vec<Level>)
    ensures { held.new.items ≡ replicate (length held.old.items) X }
{
    held.as_mut_slice().fill(Level::X);
}

/// For each net the level at which it is stuck, else X.
fn first_levels(alloc: Global, fixed: &[Option<Level>]) -> Result<Vec<Level>, AllocError>
    ensures { IfOk result (λ levels. levels.items ≡ map (λ f. unwrap_or f X) fixed.now) }
{
    let mut levels = Vec::new(alloc);
    for level in fixed {
        levels.push(level.unwrap_or(Level::X))?;
    }
    Ok(levels)
}

/// Puts for each net the level at which it is stuck, else X.
fn put_first(fixed: &[Option<Level>], levels: &mut Vec<Level>)
    requires { length levels.old.items ≡ length fixed.now }
    ensures { levels.new.items ≡ map (λ f. unwrap_or f X) fixed.now }
{
    for (net, level) in fixed.iter().enumerate() {
        levels[net] = level.unwrap_or(Level::X);
    }
}
