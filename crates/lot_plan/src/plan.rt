//! A plan: rows that fit together.

ghost use Rattle.std.specs.Prelude.{◌≡◌, ◌<◌, ◌≤◌, ◌^◌, ◌⊎◌, List, All, true, map, length, IfOk, IfErr, MatchResult};
ghost use Rattle.std.specs.Arc.{arc_value};
ghost use Rattle.std.specs.List.{list_all};
ghost use Rattle.text_bytes.specs.Bytes.{is_printing};
ghost use Rattle.text_bytes.specs.Limits.{most_bytes};
ghost use Rattle.bench_net.specs.Views.{texts};
ghost use Rattle.plan_rows.specs.Rows.{AreKept, sites_of, files_of};
ghost use Rattle.plan_rows.specs.Plan.{IsPlan, IsFault};
ghost use Rattle.plan_rows.specs.declared.row.Row.{Row};
ghost use Rattle.plan_rows.specs.declared.fault.PlanFault.{PlanFault};
ghost use Rattle.plan_rows.specs.declared.fault.PlanFault.TheVariants as fault;
ghost use Rattle.lot_plan.specs.Refusal.{IsAnswer};

use crate::bound_plan::{BoundPlan, bound};
use crate::names::files_of;
use crate::rows::{each_of, sites_of};
use bench_net::Netlist;
use indexmap::IndexSet;
use packed_code::Code;
use plan_rows::{DieRow, PlanFault, PlanRows, Row, read_rows};
use std::alloc::Global;
use std::marker::Model;
use std::sync::Arc;
use tester_types::{Items, NoMemory, TextList};

/// Files of netlists, by their names.
pub type FileList = TextList;

/// The plan of a lot.
#[derive(Drop)]
pub struct Plan {
    rows: PlanRows,
    sites: u8,
    files: FileList,
}

impl Model for Plan {
    ghost use Rattle.std.specs.Prelude.{List};
    ghost use Rattle.plan_rows.specs.declared.row.Row.{Row};
    ghost use Rattle.lot_plan.specs.Stored.{HasSitesAndFiles};

    ghost Value = { List Row };

    ghost view = { λ p. p.rows };

    ghost invariant = { λ p. HasSitesAndFiles p.rows p.sites p.files };
}

impl Plan {
    /// The plan of a text, or the first fault of its records.
    ///
    /// A plan is comma-separated values without a heading, six fields in every record, and the lot's own record first.
    /// Records are checked in order, and each for its form, its numbers' ranges, the die that it names, and whether an
    /// earlier record said the same.
    pub fn read(alloc: Global, bytes: &[u8]) -> Result<Plan, PlanFault>
        requires { length bytes.now ≤ most_bytes }
        ensures found { IfOk result (λ plan. IsPlan bytes.now plan) }
        ensures only { (rows : List Row) → IsPlan bytes.now rows
            → MatchResult result (λ plan. plan ≡ rows) (λ e. e ≡ fault.NoMemory) }
        ensures fault { IfErr result (λ e. (e ≡ fault.NoMemory) ⊎ IsFault bytes.now e) }
        ensures refused { (f : PlanFault) → IsFault bytes.now f
            → MatchResult result (λ _. ⊥) (λ e. (e ≡ fault.NoMemory) ⊎ (e ≡ f)) }
    {
        let rows = read_rows(alloc, bytes)?;
        Ok(Plan::of(alloc, rows)?)
    }

    /// The plan of rows that fit together.
    pub(crate) fn of(alloc: Global, rows: PlanRows) -> Result<Plan, NoMemory>
        requires kept { AreKept rows }
        requires few { length rows < 2 ^ 32 }
        ensures { IfOk result (λ plan. plan ≡ rows) }
    {
        let (sites, files) = sites_and_files(alloc, rows.as_slice())?;
        Ok(Plan { rows, sites, files })
    }

    /// Its rows, in order.
    pub fn rows(&self) -> &[Row]
        ensures rows { result.now ≡ self.now }
        ensures kept { AreKept self.now }
    {
        self.rows.as_slice()
    }

    /// How many sites it has: the greatest site plus 1, and none without a die.
    pub fn sites(&self) -> u8
        ensures { result ≡ sites_of self.now }
    {
        self.sites
    }

    /// The files of its dies in the order in which they are first named, each once. Their bytes show in print.
    pub fn files(&self) -> &FileList
        ensures files { result.now ≡ files_of self.now }
        ensures printing { All (λ file. list_all is_printing file ≡ true) result.now }
    {
        &self.files
    }

    /// The plan bound to a program and to the netlists of its files, in order; or the first refusal. Rows are checked
    /// in order: a clock or a bind row whose signal the program doesn't have, and a fault whose net its die's netlist
    /// doesn't have, is an unknown name; a bin of an executive that isn't there is out of range; a skew whose signal isn't
    /// there is an unknown name, and one that moves an event of it out of its cycle is outside. Then each signal is
    /// bound to each netlist, in order, and the first that has no net is unbound.
    pub fn bind(
        self,
        alloc: Global,
        code: &Code,
        nets: Vec<Arc<Netlist>>,
    ) -> Result<BoundPlan, PlanFault>
        requires { length nets.items ≡ length (files_of self) }
        ensures { IsAnswer (record {
          rows = self;
          program = code.now;
          circuits = map arc_value nets.items;
        }) result }
    {
        let Plan { rows, sites, .. } = self;
        bound(alloc, rows, sites, code, nets)
    }
}

/// How many sites rows have, and the files of their dies.
fn sites_and_files(alloc: Global, rows: &[Row]) -> Result<(u8, FileList), NoMemory>
    requires { AreKept rows.now }
    ensures sites { IfOk result (λ found. found.0 ≡ sites_of rows.now) }
    ensures files { IfOk result (λ found. found.1 ≡ files_of rows.now) }
{
    let dies = each_of::<DieRow>(alloc, rows)?;
    let files = files_of(alloc, &dies)?;
    Ok((sites_of(&dies), file_list(alloc, &files)?))
}

/// The files as texts of their own.
fn file_list(alloc: Global, files: &IndexSet<&[u8]>) -> Result<FileList, NoMemory>
    ensures { IfOk result (λ list. list ≡ texts files.now.keys) }
{
    let mut list = Vec::new(alloc);
    for file in files.iter() {
        list.push(Items::from_slice(alloc, file)?)?;
    }
    Ok(Items::from_vec(list))
}
