//! The records of a site.

ghost use Rattle.std.specs.Prelude.{◌≡◌, ◌<◌, ◌-◌, ◌∷◌, ◌++◌, [], IfOk};

use crate::outside::NoMemory;
use crate::record::Record;
use std::alloc::Global;
use std::marker::Model;

/// The records of a site in the order of filing, with places reserved for more of them.
#[derive(Debug, Drop)]
pub struct RecordList {
    records: Vec<Record>,
    places: usize,
}

impl Model for RecordList {
    ghost use Rattle.std.specs.Prelude.{◌-◌, ◌≤◌, vec_len, vec_capacity};
    ghost use Rattle.tester_types.specs.Records.{SiteRecords};

    ghost Value = { SiteRecords };

    ghost view = { λ s. record { records = s.records.items; spare = s.places - vec_len s.records } };

    ghost invariant = { λ s. (vec_len s.records ≤ s.places) × (s.places ≤ vec_capacity s.records) };
}

impl RecordList {
    /// No records, and so many places.
    pub fn new(alloc: Global, places: usize) -> Result<RecordList, NoMemory>
        ensures { IfOk result (λ list. list ≡ record { records = []; spare = places }) }
    {
        let records = Vec::with_capacity(alloc, places)?;
        Ok(RecordList { records, places })
    }

    /// Files a record behind the others, in one of the places. It takes no memory.
    pub fn file(&mut self, entry: Record)
        requires { 0 < self.old.spare }
        ensures { self.new ≡ record { records = self.old.records ++ entry ∷ []; spare = self.old.spare - 1 } }
    {
        self.records.push(entry).unwrap();
    }

    /// How many places are left.
    pub fn spare(&self) -> usize
        ensures { result ≡ self.now.spare }
    {
        self.places - self.records.len()
    }

    /// The records.
    pub fn as_slice(&self) -> &[Record]
        ensures { result.now ≡ self.now.records }
    {
        self.records.as_slice()
    }
}
