//! The book of a lot: for each site the records that were filed, and places for those to come.

ghost use Rattle.std.specs.Prelude.{◌≡◌, ◌<◌, IfOk, length};
ghost use Rattle.floor_core.specs.Book.{new_book, filed, at_site};

use lot_plan::BoundPlan;
use std::alloc::Global;
use std::marker::Model;
use tester_types::{NoMemory, Record, RecordList};

/// The records of each site in the order of filing, with places reserved for more of them.
#[derive(Debug, Drop)]
pub struct BookState {
    sites: Vec<RecordList>,
}

impl Model for BookState {
    ghost use Rattle.std.specs.Prelude.{List};
    ghost use Rattle.tester_types.specs.Records.{SiteRecords};

    ghost Value = { List SiteRecords };

    ghost view = { λ b. b.sites.items };
}

impl BookState {
    /// A book without records, with a place for each planned die of each site. It is an `Err` only for want of memory.
    pub fn new(alloc: Global, plan: &BoundPlan) -> Result<BookState, NoMemory>
        ensures { IfOk result (λ book. book ≡ new_book plan.now.rows) }
    {
        let mut sites = Vec::with_capacity(alloc, usize::from(plan.sites()))?;
        for site in 0..plan.sites() {
            sites.push(RecordList::new(alloc, usize::from(plan.dies(site)))?)?;
        }
        Ok(BookState { sites })
    }

    /// The sites in order, each with its records.
    pub fn sites(&self) -> &[RecordList]
        ensures { result.now ≡ self.now }
    {
        self.sites.as_slice()
    }

    /// Files a record behind the others of its site, in a place that is spare there. It takes no memory.
    pub fn file_into(&mut self, entry: Record)
        requires { 0 < (at_site self.old entry.site).spare }
        ensures { self.new ≡ filed self.old entry }
    {
        let site = usize::from(entry.site);
        self.sites[site].file(entry);
    }

    /// The records of a site in the order of filing.
    pub fn records(&self, site: u8) -> &RecordList
        requires { site < length self.now }
        ensures { result.now ≡ at_site self.now site }
    {
        &self.sites[usize::from(site)]
    }
}
