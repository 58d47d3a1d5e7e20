//! The rows of a plan by sites and their dies.
ghost use Rattle.std.specs.Prelude.{◌≡◌, ℕ, ◌<◌, List, [], ◌∷◌, ◌++◌, length, slice_set, replicate, fold, All, IfOk, OnOk};
ghost use Rattle.std.specs.List.{position_or_len};
ghost use Rattle.std.specs.Str.{bytes_eq};
ghost use Rattle.text_bytes.specs.Texts.{behind};
ghost use Rattle.plan_rows.specs.declared.row.DieRow.{DieRow};
ghost use Rattle.bench_net.specs.Views.{texts};
ghost use Rattle.plan_rows.specs.Rows.{AreKept, dies_of, sites_of, files_of};
ghost use Rattle.lot_plan.specs.Groups.{DieRows, with_fault, with_stop, rows_of, put_die, put_fault, put_stop, IsThere, HasShape, AreGroups};

use crate::names::file_number;
use crate::rows::{copies_of, each_of};
use indexmap::IndexSet;
use plan_rows::{DieRow, FaultRow, Row, StopRow};
use std::alloc::{AllocError, Global};
use std::marker::Model;

/// The rows of a die, and the number of its netlist's file.
#[derive(Drop)]
pub(crate) struct DieGroup<'a> {
    die: &'a DieRow,
    file: usize,
    faults: Vec<&'a FaultRow>,
    stops: Vec<StopRow>,
}

impl<'a> Model for DieGroup<'a> {
    ghost use Rattle.lot_plan.specs.Groups.{DieRows};
    ghost use Rattle.text_bytes.specs.Texts.{behind};

    ghost Value = { DieRows };

    ghost view = { λ g. record {
      die = g.die.now;
      file = g.file;
      faults = behind g.faults.items;
      stops = g.stops.items;
    } };
}

impl<'a> DieGroup<'a> {
    /// A die without faults and stops.
    fn new(alloc: Global, die: &'a DieRow, file: usize) -> Self
        ensures { result ≡ record { die = die.now; file = file; faults = []; stops = [] } }
    {
        DieGroup {
            die,
            file,
            faults: Vec::new(alloc),
            stops: Vec::new(alloc),
        }
    }

    /// The die's own row.
    pub(crate) fn die(&self) -> &DieRow
        ensures { result.now ≡ self.now.die }
    {
        self.die
    }

    /// The number of its netlist's file.
    pub(crate) fn file(&self) -> usize
        ensures { result ≡ self.now.file }
    {
        self.file
    }

    /// Its faults, in the order of their rows.
    pub(crate) fn faults(&self) -> &[&'a FaultRow]
        ensures { behind result.now ≡ self.now.faults }
    {
        self.faults.as_slice()
    }

    /// Its stops, in the order of their rows.
    pub(crate) fn stops(&self) -> &[StopRow]
        ensures { result.now ≡ self.now.stops }
    {
        self.stops.as_slice()
    }

    /// Puts a fault behind the others.
    fn add_fault(&mut self, fault: &'a FaultRow) -> Result<(), AllocError>
        ensures { OnOk result (self.new ≡ with_fault self.old fault.now) }
    {
        self.faults.push(fault)?;
        Ok(())
    }

    /// Puts a stop behind the others.
    fn add_stop(&mut self, stop: StopRow) -> Result<(), AllocError>
        ensures { OnOk result (self.new ≡ with_stop self.old stop) }
    {
        self.stops.push(stop)?;
        Ok(())
    }
}

/// The dies of a site.
#[derive(Drop)]
pub(crate) struct SiteGroup<'a> {
    dies: Vec<DieGroup<'a>>,
}

impl<'a> Model for SiteGroup<'a> {
    ghost use Rattle.std.specs.Prelude.{List};
    ghost use Rattle.lot_plan.specs.Groups.{DieRows};

    ghost Value = { List DieRows };

    ghost view = { λ g. g.dies.items };
}

impl<'a> SiteGroup<'a> {
    /// A site without dies.
    fn new(alloc: Global) -> Self
        ensures { result ≡ [] }
    {
        SiteGroup {
            dies: Vec::new(alloc),
        }
    }

    /// Its dies, in order.
    pub(crate) fn as_slice(&self) -> &[DieGroup<'a>]
        ensures { result.now ≡ self.now }
    {
        self.dies.as_slice()
    }

    /// Puts a die behind the others.
    fn add_die(&mut self, die: DieGroup<'a>) -> Result<(), AllocError>
        ensures { OnOk result (self.new ≡ self.old ++ die.entry ∷ []) }
    {
        self.dies.push(die)?;
        Ok(())
    }

    /// Puts a fault behind those of a die.
    fn add_fault(&mut self, die: usize, fault: &'a FaultRow) -> Result<(), AllocError>
        requires { die < length self.old }
        ensures { OnOk result (self.new ≡ slice_set self.old die (with_fault (rows_of self.old die) fault.now)) }
    {
        self.dies[die].add_fault(fault)
    }

    /// Puts a stop behind those of a die.
    fn add_stop(&mut self, die: usize, stop: StopRow) -> Result<(), AllocError>
        requires { die < length self.old }
        ensures { OnOk result (self.new ≡ slice_set self.old die (with_stop (rows_of self.old die) stop)) }
    {
        self.dies[die].add_stop(stop)
    }
}

/// Sites without dies.
fn empty_sites<'a>(alloc: Global, sites: u8) -> Result<Vec<SiteGroup<'a>>, AllocError>
    ensures { IfOk result (λ made. made.items ≡ replicate sites []) }
{
    let mut made = Vec::new(alloc);
    for _ in 0..sites {
        made.push(SiteGroup::new(alloc))?;
    }
    Ok(made)
}

/// Puts a die behind those of its site.
fn add_die<'a>(
    alloc: Global,
    sites: &mut Vec<SiteGroup<'a>>,
    files: &IndexSet<&[u8]>,
    die: &'a DieRow,
) -> Result<(), AllocError>
    requires { die.now.site < length sites.old.items }
    ensures { OnOk result (sites.new.items ≡ put_die (texts files.now.keys) sites.old.items die.now) }
{
    let file = file_number(files, die.file.as_slice());
    sites[die.site as usize].add_die(DieGroup::new(alloc, die, file))
}

/// Puts a fault behind those of its die.
fn add_fault<'a>(sites: &mut Vec<SiteGroup<'a>>, fault: &'a FaultRow) -> Result<(), AllocError>
    requires { IsThere sites.old.items fault.now.site fault.now.die }
    ensures { OnOk result (sites.new.items ≡ put_fault sites.old.items fault.now) }
{
    sites[fault.site as usize].add_fault(fault.die as usize, fault)
}

/// Puts a stop behind those of its die.
fn add_stop<'a>(sites: &mut Vec<SiteGroup<'a>>, stop: StopRow) -> Result<(), AllocError>
    requires { IsThere sites.old.items stop.site stop.die }
    ensures { OnOk result (sites.new.items ≡ put_stop sites.old.items stop) }
{
    sites[stop.site as usize].add_stop(stop.die as usize, stop)
}

/// The dies, by their sites.
fn with_dies<'a>(
    alloc: Global,
    sites: u8,
    files: &IndexSet<&[u8]>,
    dies: &[&'a DieRow],
) -> Result<Vec<SiteGroup<'a>>, AllocError>
    requires { All (λ d. d.site < sites) (behind dies.now) }
    ensures { IfOk result
        (λ made. made.items ≡ fold (put_die (texts files.now.keys)) (replicate sites []) (behind dies.now)) }
{
    let mut made = empty_sites(alloc, sites)?;
    for die in dies {
        add_die(alloc, &mut made, files, die)?;
    }
    Ok(made)
}

/// Puts faults behind those of their dies.
fn add_faults<'a>(sites: &mut Vec<SiteGroup<'a>>, faults: &[&'a FaultRow]) -> Result<(), AllocError>
    requires { All (λ f. IsThere sites.old.items f.site f.die) (behind faults.now) }
    ensures shape { OnOk result (HasShape sites.old.items sites.new.items) }
    ensures all { OnOk result (sites.new.items ≡ fold put_fault sites.old.items (behind faults.now)) }
{
    for fault in faults {
        add_fault(sites, fault)?;
    }
    Ok(())
}

/// Puts stops behind those of their dies.
fn add_stops<'a>(sites: &mut Vec<SiteGroup<'a>>, stops: &[StopRow]) -> Result<(), AllocError>
    requires { All (λ s. IsThere sites.old.items s.site s.die) stops.now }
    ensures { OnOk result (sites.new.items ≡ fold put_stop sites.old.items stops.now) }
{
    for stop in stops {
        add_stop(sites, *stop)?;
    }
    Ok(())
}

/// The rows of all dies, by sites. `dies` are the plan's die rows, and `files` its files.
pub(crate) fn groups_of<'a>(
    alloc: Global,
    rows: &'a [Row],
    dies: &[&'a DieRow],
    sites: u8,
    files: &IndexSet<&[u8]>,
) -> Result<Vec<SiteGroup<'a>>, AllocError>
    requires kept { AreKept rows.now }
    requires dies { behind dies.now ≡ dies_of rows.now }
    requires sites { sites ≡ sites_of rows.now }
    requires files { texts files.now.keys ≡ files_of rows.now }
    ensures { IfOk result (λ made. AreGroups rows.now made.items) }
{
    let mut made = with_dies(alloc, sites, files, dies)?;
    let faults = each_of::<FaultRow>(alloc, rows)?;
    add_faults(&mut made, &faults)?;
    let stops = copies_of::<StopRow>(alloc, rows)?;
    add_stops(&mut made, &stops)?;
    Ok(made)
}
