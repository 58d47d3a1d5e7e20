//! A plan that is bound to a program and netlists.

ghost use Rattle.std.specs.Prelude.{◌≡◌, ◌==◌, ◌<◌, ◌≤◌, ◌^◌, map, length, IfOk};
ghost use Rattle.std.specs.List.{find};
ghost use Rattle.std.specs.Option.{option_map, option_map_or};
ghost use Rattle.std.specs.Arc.{arc_value};
ghost use Rattle.plan_rows.specs.Rows.{AreKept, each_of, as_bin, sites_of, files_of, dies_at, lot_of};
ghost use Rattle.lot_plan.specs.Bound.{die_at, circuit_of, binding_of, image_of, stop_of};
ghost use Rattle.lot_plan.specs.Readings.{first_of, bin_of, ends_so, usual_bin};
ghost use Rattle.lot_plan.specs.Skews.{site_skews};
ghost use Rattle.lot_plan.specs.Refusal.{IsAnswer, IsBound};
ghost use Rattle.lot_plan.specs.Stored.{IsStored};

use crate::binding::made_of;
use crate::bound_die::BoundDie;
use crate::pins::signals_of;
use crate::program_seen::ProgramSeen;
use crate::rows::{copies_of, first_of, lot_of};
use crate::skews::all_skews;
use bench_net::Netlist;
use die_sim::{Binding, DieImage};
use packed_code::Code;
use plan_rows::{BinRow, Ending, LotRow, PlanFault, PlanRows, Row, StopRow};
use std::alloc::Global;
use std::marker::Model;
use std::sync::Arc;
use tester_types::{Items, NoMemory, Verdict};

/// A plan that is bound: for each try of each die what is loaded, and what else the lot needs.
#[derive(Drop)]
pub struct BoundPlan {
    rows: PlanRows,
    program: ProgramSeen,
    lot: LotRow,
    first: Option<(u8, u16)>,
    bins: Items<BinRow>,
    skews: Items<Items<i64>>,
    nets: Items<Arc<Netlist>>,
    bindings: Items<Arc<Binding>>,
    sites: Items<Items<BoundDie>>,
}

impl Model for BoundPlan {
    ghost use Rattle.std.specs.Prelude.{map};
    ghost use Rattle.std.specs.Arc.{arc_value};
    ghost use Rattle.lot_plan.specs.Bound.{Bound};
    ghost use Rattle.lot_plan.specs.Stored.{IsInStore};

    ghost Value = { Bound };

    ghost view = { λ p. record {
      rows = p.rows;
      program = p.program.program;
      circuits = map arc_value p.nets;
    } };

    ghost invariant = { λ p. IsInStore
        (record { rows = p.rows; program = p.program.program; circuits = map arc_value p.nets })
        p.lot p.first p.bins p.skews (map arc_value p.bindings) p.sites };
}

impl BoundPlan {
    /// How many sites it has: the greatest site plus 1, and none without a die.
    pub fn sites(&self) -> u8
        ensures count { result ≡ sites_of self.now.rows }
        ensures bound { IsBound self.now }
    {
        self.sites.len() as u8
    }

    /// How many cycles a batch holds.
    pub fn batch(&self) -> u32
        ensures { result ≡ (lot_of self.now.rows).batch }
    {
        self.lot.batch
    }

    /// How many tries a die has.
    pub fn tries(&self) -> u8
        ensures { result ≡ (lot_of self.now.rows).tries }
    {
        self.lot.tries
    }

    /// How many fails of a try are kept.
    pub fn keep(&self) -> u16
        ensures { result ≡ (lot_of self.now.rows).keep }
    {
        self.lot.keep
    }

    /// The skews of the signals at a site, in declared order and in femtoseconds: 0 where a signal has none.
    pub fn skews(&self, site: u8) -> &[i64]
        requires { site < sites_of self.now.rows }
        ensures { result.now ≡ site_skews self.now site }
    {
        self.skews.as_slice()[site as usize].as_slice()
    }

    /// How many dies a site has.
    pub fn dies(&self, site: u8) -> u16
        requires { site < sites_of self.now.rows }
        ensures { result ≡ length (dies_at site self.now.rows) }
    {
        self.sites.as_slice()[site as usize].len() as u16
    }

    /// The site of the first die row, and the number there of its die, if there is a die.
    pub fn first(&self) -> Option<(u8, u16)>
        ensures { result ≡ first_of self.now.rows }
    {
        self.first
    }

    /// What is stored of a die.
    fn die(&self, site: u8, die: u16) -> &BoundDie
        requires site { site < sites_of self.now.rows }
        requires die { die < length (dies_at site self.now.rows) }
        ensures { IsStored self.now site die result.now }
    {
        &self.sites.as_slice()[site as usize].as_slice()[die as usize]
    }

    /// The name of a die.
    pub fn die_name(&self, site: u8, die: u16) -> &[u8]
        requires site { site < sites_of self.now.rows }
        requires die { die < length (dies_at site self.now.rows) }
        ensures { result.now ≡ (die_at self.now.rows site die).name }
    {
        self.die(site, die).name.as_slice()
    }

    /// The netlist of a die.
    pub fn net(&self, site: u8, die: u16) -> &Arc<Netlist>
        requires site { site < sites_of self.now.rows }
        requires die { die < length (dies_at site self.now.rows) }
        ensures { arc_value result.now ≡ circuit_of self.now site die }
    {
        &self.nets.as_slice()[self.die(site, die).file]
    }

    /// How the signals are bound to the netlist of a die.
    pub fn binding(&self, site: u8, die: u16) -> &Arc<Binding>
        requires site { site < sites_of self.now.rows }
        requires die { die < length (dies_at site self.now.rows) }
        ensures { arc_value result.now ≡ binding_of self.now site die }
    {
        &self.bindings.as_slice()[self.die(site, die).file]
    }

    /// What is loaded for a try of a die, by the number of the try, from 1.
    pub fn image(&self, site: u8, die: u16, number: u8) -> &DieImage
        requires site { site < sites_of self.now.rows }
        requires die { die < length (dies_at site self.now.rows) }
        requires some { 1 ≤ number }
        requires tries { number ≤ (lot_of self.now.rows).tries }
        ensures { result.now ≡ image_of self.now site die number }
    {
        &self.die(site, die).images.as_slice()[number as usize - 1]
    }

    /// The batch before which the plan stops a try of a die, by the number of the try, from 1; none where it goes on.
    pub fn stop(&self, site: u8, die: u16, number: u8) -> Option<u64>
        requires site { site < sites_of self.now.rows }
        requires die { die < length (dies_at site self.now.rows) }
        requires some { 1 ≤ number }
        requires tries { number ≤ (lot_of self.now.rows).tries }
        ensures { result ≡ stop_of self.now.rows site die number }
    {
        stop_in(self.die(site, die).stops.as_slice(), number)
    }

    /// The bin of a die whose last try has this verdict: as the plan says, else 1 for a pass, 2 for fails in any
    /// executive, 3 where it was stopped, and 4 where contact was lost.
    pub fn bin(&self, verdict: &Verdict) -> u8
        ensures bin { result ≡ bin_of self.now.rows verdict.now }
        ensures within { (1 ≤ result) × (result ≤ 99) }
    {
        bin_in(self.bins.as_slice(), verdict)
    }
}

/// The plan of these rows, bound to a program and netlists, or the first refusal.
pub(crate) fn bound(
    alloc: Global,
    rows: PlanRows,
    sites: u8,
    code: &Code,
    nets: Vec<Arc<Netlist>>,
) -> Result<BoundPlan, PlanFault>
    requires kept { AreKept rows }
    requires few { length rows < 2 ^ 32 }
    requires sites { sites ≡ sites_of rows }
    requires files { length nets.items ≡ length (files_of rows) }
    ensures { IsAnswer (record {
      rows = rows;
      program = code.now;
      circuits = map arc_value nets.items;
    }) result }
{
    let signals = signals_of(alloc, code)?;
    let made = made_of(
        alloc,
        rows.as_slice(),
        sites,
        signals.as_slice(),
        code,
        &nets,
    )?;
    let bins = bin_list(alloc, rows.as_slice())?;
    let skews = all_skews(alloc, rows.as_slice(), signals.as_slice(), sites)?;
    Ok(BoundPlan {
        lot: lot_of(rows.as_slice()),
        first: first_of(rows.as_slice()),
        rows,
        program: ProgramSeen::of(code),
        bins,
        skews,
        nets: Items::from_vec(nets),
        bindings: made.bindings,
        sites: made.dies,
    })
}

/// The bin rows, in order.
fn bin_list(alloc: Global, rows: &[Row]) -> Result<Items<BinRow>, NoMemory>
    ensures { IfOk result (λ bins. bins ≡ each_of as_bin rows.now) }
{
    Ok(Items::from_vec(copies_of::<BinRow>(alloc, rows)?))
}

/// The batch of the first stop of the try of this number.
fn stop_in(stops: &[StopRow], number: u8) -> Option<u64>
    ensures { result ≡ option_map (λ s. s.batch) (find (λ s. s.number == number) stops.now) }
{
    for stop in stops {
        if stop.number == number {
            return Some(stop.batch);
        }
    }
    None
}

/// Whether a verdict is of this ending.
fn ends_so(verdict: &Verdict, ending: Ending) -> bool
    ensures { result ≡ ends_so verdict.now ending }
{
    match (verdict, ending) {
        (Verdict::Pass, Ending::Pass) => true,
        (Verdict::Fail(exec), Ending::Fail(of)) => u16::from(of) == *exec,
        (Verdict::Stopped(_, _), Ending::Stopped) => true,
        (Verdict::Contact(_), Ending::Contact) => true,
        _ => false,
    }
}

/// The bin of a verdict where no row gives one.
fn usual_bin(verdict: &Verdict) -> u8
    ensures { result ≡ usual_bin verdict.now }
{
    match verdict {
        Verdict::Pass => 1,
        Verdict::Fail(_) => 2,
        Verdict::Stopped(_, _) => 3,
        Verdict::Contact(_) => 4,
    }
}

/// The bin of the first of the rows that is of this verdict, else the usual one.
fn bin_in(bins: &[BinRow], verdict: &Verdict) -> u8
    ensures { result
        ≡ option_map_or (λ b. b.bin) (find (λ b. ends_so verdict.now b.ending) bins.now) (usual_bin verdict.now) }
{
    for bin in bins {
        if ends_so(verdict, bin.ending) {
            return bin.bin;
        }
    }
    usual_bin(verdict)
}
