//! Which characters the signals have waves for in the table that was asked last, so that a character of a row is looked
//! up in one step.

ghost use Rattle.std.specs.Prelude.{◌≡◌, ◌*◌, ◌≤◌, [], List, length, IfOk, OnOk, OnErr};
ghost use Rattle.tester_types.specs.declared.wave.Wave.{Wave as AWave};
ghost use Rattle.tester_types.specs.declared.wave.Table.{Table as ATable};
ghost use Rattle.packed_code.specs.Conditions.{has_waves, waves_of as the_waves_of};
ghost use Rattle.page_code.specs.Index.{AreMarks, ArePut, IsIndex, mark_of as the_mark_of};

use std::alloc::{AllocError, Global};
use tester_types::{Table, Wave};

/// For each signal 256 marks, one a byte: whether the table of this number has a wave for the two.
#[derive(Drop)]
pub(crate) struct WaveIndex {
    alloc: Global,
    table: u16,
    marks: Vec<bool>,
}

impl WaveIndex {
    /// Marks of no signals.
    pub(crate) fn new(alloc: Global) -> WaveIndex
        ensures { (tables : List ATable) → IsIndex tables result }
    {
        WaveIndex {
            alloc,
            table: 0,
            marks: Vec::new(alloc),
        }
    }

    /// Makes the marks be those of a table, for at least so many signals. It goes over the waves of that table and of
    /// the one before, and over none where the marks are those of the table.
    pub(crate) fn turn_to(
        &mut self,
        tables: &[Table],
        table: u16,
        signals: usize,
    ) -> Result<(), AllocError>
        requires { IsIndex tables.now self.old }
        ensures index { IsIndex tables.now self.new }
        ensures table { OnOk result (self.new.table ≡ table) }
        ensures room { OnOk result (signals * 256 ≤ length self.new.marks.items) }
    {
        if self.table == table && signals <= self.marks.len() / 256 {
            return Ok(());
        }
        self.wipe(tables, signals)?;
        put(&mut self.marks, waves_of(tables, table), true);
        self.table = table;
        Ok(())
    }

    /// Takes all marks away, and makes room for those of so many signals.
    fn wipe(&mut self, tables: &[Table], signals: usize) -> Result<(), AllocError>
        requires { IsIndex tables.now self.old }
        ensures wiped { OnOk result (AreMarks [] self.new.marks.items) }
        ensures room { OnOk result (signals * 256 ≤ length self.new.marks.items) }
        ensures failed { OnErr result (self.new ≡ self.old) }
    {
        if signals <= self.marks.len() / 256 {
            put(&mut self.marks, waves_of(tables, self.table), false);
        } else {
            self.marks = no_marks(self.alloc, signals)?;
        }
        Ok(())
    }

    /// Whether each character of a row has a wave for its signal.
    pub(crate) fn has_each(&self, row: &[u8]) -> bool
        requires { length row.now * 256 ≤ length self.now.marks.items }
        ensures { (tables : List ATable) → IsIndex tables self.now
            → result ≡ has_waves (the_waves_of tables self.now.table) 0 row.now }
    {
        has_each_mark(self.marks.as_slice(), row)
    }
}

/// The place of the mark of a signal and a character.
fn mark_of(signal: u16, character: u8) -> usize
    ensures { result ≡ the_mark_of signal character }
{
    usize::from(signal) * 256 + usize::from(character)
}

/// The waves of a table, none where there is no such table.
fn waves_of(tables: &[Table], table: u16) -> &[Wave]
    ensures { result.now ≡ the_waves_of tables.now table }
{
    match tables.get(usize::from(table)) {
        Some(found) => found.waves.as_slice(),
        None => &[],
    }
}

/// No marks, with room for those of so many signals.
fn no_marks(alloc: Global, signals: usize) -> Result<Vec<bool>, AllocError>
    ensures wiped { IfOk result (λ marks. AreMarks [] marks.items) }
    ensures room { IfOk result (λ marks. signals * 256 ≤ length marks.items) }
{
    let Some(size) = signals.checked_mul(256) else {
        return Err(AllocError);
    };
    vec![in alloc; false; size]
}

/// Gives the marks of the waves this value.
fn put(marks: &mut Vec<bool>, waves: &[Wave], value: bool)
    ensures { ArePut waves.now value marks.old.items marks.new.items }
{
    for wave in waves {
        let place = mark_of(wave.signal, wave.character);
        if place < marks.len() {
            marks[place] = value;
        }
    }
}

/// Whether each character of a row has its mark.
fn has_each_mark(marks: &[bool], row: &[u8]) -> bool
    requires { length row.now * 256 ≤ length marks.now }
    ensures { (waves : List AWave) → AreMarks waves marks.now → result ≡ has_waves waves 0 row.now }
{
    for (signal, character) in row.iter().enumerate() {
        if *character != 0 && !marks[signal * 256 + usize::from(*character)] {
            return false;
        }
    }
    true
}
