//! The rows so far, and how a record behind them is judged.

ghost use Rattle.std.specs.Prelude.{◌≡◌, ◌==◌, ◌<◌, ◌≤◌, ◌∷◌, ◌++◌, ◌-◌, ◌^◌, [], Ok, Err, length, OnOk, IfOk};
ghost use Rattle.csv.specs.Records.{fields_of};
ghost use Rattle.plan_rows.specs.Limits.{last_site};
ghost use Rattle.plan_rows.specs.Judging.{row_of, number_at, placed, row_at, judge};
ghost use Rattle.plan_rows.specs.Forms.{a_die, a_stop, a_skew, written_of};
ghost use Rattle.plan_rows.specs.Views.{written_seen, placed_seen, fault_seen};
ghost use Rattle.plan_rows.specs.Plan.{Answers};
ghost use Rattle.plan_rows.specs.Inside.{IsAnswer, IsBook, IsNext, Reads, key_of};

use crate::fault::PlanFault;
use crate::kinds::{
    LAST_BATCH, LAST_SITE, MOST_SKEW, MOST_TRIES, are_tries, bin_row, bind_row, lot_row, signed,
    small_tries,
};
use crate::row::{DieRow, FaultRow, Row, SkewRow, StopRow};
use crate::subject::key_of;
use crate::tally::DieTally;
use crate::written::{Written, WrittenFault, written_of};
use csv::ByteRecord;
use indexmap::IndexSet;
use std::alloc::{AllocError, Global};
use tester_types::Items;

/// Rows in order, with what a later row is judged by: the tally of the lot and its dies, and what each row is about.
#[derive(Drop)]
pub(crate) struct Book {
    rows: Vec<Row>,
    tally: DieTally,
    subjects: IndexSet<Vec<u16>>,
}

impl Book {
    /// No rows.
    pub(crate) fn new(alloc: Global) -> Result<Book, AllocError>
        ensures book { IfOk result (λ b. IsBook b) }
        ensures none { IfOk result (λ b. b.rows.items ≡ []) }
    {
        Ok(Book {
            rows: Vec::new(alloc),
            tally: DieTally::new(alloc)?,
            subjects: IndexSet::new(alloc),
        })
    }

    /// How many rows there are.
    fn len(&self) -> usize
        ensures { result ≡ length self.now.rows.items }
    {
        self.rows.len()
    }

    /// Whether there is no row.
    pub(crate) fn is_empty(&self) -> bool
        ensures { result ≡ (length self.now.rows.items == 0) }
    {
        self.rows.is_empty()
    }

    /// The rows in order.
    pub(crate) fn into_rows(self) -> Vec<Row>
        ensures { result.items ≡ self.rows.items }
    {
        self.rows
    }

    /// The number of the die of this name at a site.
    fn number_at(&self, site: u64, name: &[u8]) -> Option<u16>
        requires book { IsBook self.now }
        requires site { site ≤ last_site }
        ensures { result ≡ number_at self.now.rows.items site name.now }
    {
        let number = self.tally.place_of(site, name)?;
        Some(number as u16)
    }

    /// The row of one more die: at a site from 0 to 63, and within the limits of dies and of kept fails.
    fn die_row(
        &self,
        alloc: Global,
        place: u32,
        site: u64,
        name: &[u8],
        file: &[u8],
    ) -> Result<Row, PlanFault>
        requires book { IsBook self.now }
        ensures { IsAnswer result (row_of place self.now.rows.items (a_die site name.now file.now)) }
    {
        if site > LAST_SITE || !self.tally.has_room() {
            return Err(PlanFault::OutOfRange(place));
        }
        let name = Items::from_slice(alloc, name)?;
        let file = Items::from_slice(alloc, file)?;
        Ok(Row::Die(DieRow {
            site: site as u8,
            name,
            file,
        }))
    }

    /// The row of an order to stop a try, 1 to 8, of a die that is there, before a batch, 0 to 2^48.
    fn stop_row(
        &self,
        place: u32,
        site: u64,
        name: &[u8],
        number: u64,
        batch: u64,
    ) -> Result<Row, PlanFault>
        requires book { IsBook self.now }
        ensures { result ≡ row_of place self.now.rows.items (a_stop site name.now number batch) }
    {
        if site > LAST_SITE || number < 1 || number > MOST_TRIES || batch > LAST_BATCH {
            return Err(PlanFault::OutOfRange(place));
        }
        match self.number_at(site, name) {
            Some(die) => Ok(Row::Stop(StopRow {
                site: site as u8,
                die,
                number: number as u8,
                batch,
            })),
            None => Err(PlanFault::UnknownName(place)),
        }
    }

    /// The row of a stuck net of a die that is there.
    fn fault_row(&self, alloc: Global, place: u32, fault: &WrittenFault) -> Result<Row, PlanFault>
        requires book { IsBook self.now }
        ensures { IsAnswer result (row_of place self.now.rows.items (fault_seen fault.now)) }
    {
        if fault.site > LAST_SITE || fault.value > 1 || !are_tries(fault.tries) {
            return Err(PlanFault::OutOfRange(place));
        }
        let Some(die) = self.number_at(fault.site, fault.name) else {
            return Err(PlanFault::UnknownName(place));
        };
        let net = Items::from_slice(alloc, fault.net)?;
        Ok(Row::Fault(FaultRow {
            site: fault.site as u8,
            die,
            net,
            value: fault.value == 1,
            tries: small_tries(fault.tries),
        }))
    }

    /// The row of a signal's skew, up to 10^12 femtoseconds either way, at a site that has a die.
    fn skew_row(
        &self,
        alloc: Global,
        place: u32,
        site: u64,
        signal: &[u8],
        back: bool,
        size: u64,
    ) -> Result<Row, PlanFault>
        requires book { IsBook self.now }
        ensures { IsAnswer result (row_of place self.now.rows.items (a_skew site signal.now back size)) }
    {
        if site > LAST_SITE || size > MOST_SKEW {
            return Err(PlanFault::OutOfRange(place));
        }
        if !self.tally.has_die(site) {
            return Err(PlanFault::UnknownName(place));
        }
        Ok(Row::Skew(SkewRow {
            site: site as u8,
            signal: Items::from_slice(alloc, signal)?,
            skew: signed(back, size),
        }))
    }

    /// The row of what a record says: its numbers within their ranges, and then its die.
    fn row_of(&self, alloc: Global, place: u32, written: &Written) -> Result<Row, PlanFault>
        requires book { IsBook self.now }
        ensures { IsAnswer result (row_of place self.now.rows.items (written_seen written.now)) }
    {
        match *written {
            Written::Lot { batch, tries, keep } => lot_row(place, batch, tries, keep),
            Written::Clock { signal } => Ok(Row::Clock(Items::from_slice(alloc, signal)?)),
            Written::Bind { signal, net } => bind_row(alloc, signal, net),
            Written::Die { site, name, file } => self.die_row(alloc, place, site, name, file),
            Written::Fault(fault) => self.fault_row(alloc, place, &fault),
            Written::Stop {
                site,
                name,
                number,
                batch,
            } => self.stop_row(place, site, name, number, batch),
            Written::Bin { ended, number } => bin_row(place, ended, number),
            Written::Skew {
                site,
                signal,
                back,
                size,
            } => self.skew_row(alloc, place, site, signal, back, size),
        }
    }

    /// What a record says, where it has a form and stands where it may.
    fn placed<'r>(&self, place: u32, fields: &'r ByteRecord) -> Result<Written<'r>, PlanFault>
        ensures { placed_seen result ≡ placed place self.now.rows.items (written_of (fields_of fields.now)) }
    {
        match written_of(fields) {
            Some(said) if matches!(said, Written::Lot { .. }) == self.is_empty() => Ok(said),
            _ => Err(PlanFault::Shape(place)),
        }
    }

    /// The row of a record by itself.
    fn row_at(&self, alloc: Global, place: u32, fields: &ByteRecord) -> Result<Row, PlanFault>
        requires book { IsBook self.now }
        ensures { IsAnswer result (row_at place self.now.rows.items (fields_of fields.now)) }
    {
        let written = self.placed(place, fields)?;
        self.row_of(alloc, place, &written)
    }

    /// Adds a row, with what it is about.
    fn add(&mut self, alloc: Global, row: Row, subject: Vec<u16>) -> Result<(), AllocError>
        requires book { IsBook self.old }
        requires next { IsNext self.old.rows.items row }
        requires subject { subject.items ≡ key_of row }
        ensures { OnOk result (IsBook self.new × (self.new.rows.items ≡ self.old.rows.items ++ row ∷ [])) }
    {
        self.tally.note(alloc, &row)?;
        self.subjects.insert(subject)?;
        self.rows.push(row)?;
        Ok(())
    }

    /// Reads the next record: it is one more row, or refused with its place, counted from 1.
    pub(crate) fn read(&mut self, alloc: Global, fields: &ByteRecord) -> Result<(), PlanFault>
        requires book { IsBook self.old }
        requires few { length self.old.rows.items < 2 ^ 32 - 1 }
        ensures { Answers (λ _. Reads self.old self.new (fields_of fields.now))
            (λ e. judge self.old.rows.items (fields_of fields.now) ≡ Err e) result }
    {
        let place = self.len() as u32 + 1;
        let row = self.row_at(alloc, place, fields)?;
        let subject = key_of(alloc, &row)?;
        if self.subjects.contains(subject.as_slice()) {
            return Err(PlanFault::Twice(place));
        }
        self.add(alloc, row, subject)?;
        Ok(())
    }
}
