//! A code: what a test program is compiled to.

ghost use Rattle.std.specs.Prelude.{◌≡◌, ◌*◌, ◌<◌, ◌≤◌, List, Some, length, take, drop, slice_get};
ghost use Rattle.std.specs.List.{flat_map};
ghost use Rattle.std.specs.Option.{option_map};
ghost use Rattle.text_bytes.specs.Limits.{longest_period};
ghost use Rattle.packed_code.specs.Meaning.{Means, cycle_count};
ghost use Rattle.packed_code.specs.Conditions.{IsProgram};
ghost use Rattle.packed_code.specs.Program.{code_of};
ghost use Rattle.packed_code.specs.Cycles.{exec_of, pages_of, pages_of_exec, page_count, page_of as the_page_of, offset_of};

use crate::exec::{CodeExec, CodeExecList};
use crate::instr::Instr;
use crate::packed::PackedInstr;
use crate::parts::{CodeChainList, CodeSignal, CodeSignalList};
use crate::rows::RowList;
use std::marker::Model;
use tester_types::{Direction, Table, TableList};

/// How many instructions a page holds.
pub const PAGE: usize = 256;

/// A compiled test program: signals, tables, rows of characters, and executives.
#[derive(Drop)]
pub struct Code {
    signals: CodeSignalList,
    tables: TableList,
    rows: RowList,
    execs: CodeExecList,
}

impl Model for Code {
    ghost use Rattle.packed_code.specs.Program.{Program, code_of};
    ghost use Rattle.packed_code.specs.Conditions.{IsProgram};

    ghost Value = { Program };

    ghost view = { λ c. code_of c.signals c.tables c.rows c.execs };

    ghost invariant = { λ c. IsProgram (code_of c.signals c.tables c.rows c.execs) };
}

impl Code {
    /// The code of these parts.
    pub fn new(
        signals: CodeSignalList,
        tables: TableList,
        rows: RowList,
        execs: CodeExecList,
    ) -> Code
        requires { IsProgram (code_of signals tables rows execs) }
        ensures { result ≡ code_of signals tables rows execs }
    {
        Code {
            signals,
            tables,
            rows,
            execs,
        }
    }

    /// How many signals it has.
    pub fn signals(&self) -> u16
        ensures count { result ≡ length self.now.signals }
        ensures conditions { IsProgram self.now }
    {
        self.signals.len() as u16
    }

    /// How many tables it has.
    pub fn tables(&self) -> u16
        ensures { result ≡ length self.now.tables }
    {
        self.tables.len() as u16
    }

    /// How many rows it has.
    pub fn rows(&self) -> u32
        ensures { result ≡ length self.now.rows }
    {
        self.rows.len() as u32
    }

    /// How many executives it has.
    pub fn execs(&self) -> u16
        ensures { result ≡ length self.now.execs }
    {
        self.execs.len() as u16
    }

    /// The name of a signal.
    pub fn signal_name(&self, signal: u16) -> &[u8]
        requires { signal < length self.now.signals }
        ensures { option_map (λ s. s.name) (slice_get self.now.signals signal) ≡ Some result.now }
    {
        self.signals.as_slice()[signal as usize].name.as_slice()
    }

    /// The direction of a signal.
    pub fn direction(&self, signal: u16) -> Direction
        requires { signal < length self.now.signals }
        ensures { option_map (λ s. s.direction) (slice_get self.now.signals signal) ≡ Some result }
    {
        self.signals.as_slice()[signal as usize].direction
    }

    /// A table.
    pub fn table(&self, table: u16) -> &Table
        requires { table < length self.now.tables }
        ensures found { slice_get self.now.tables table ≡ Some result.now }
        ensures period { (0 < result.now.period) × (result.now.period ≤ longest_period) }
    {
        &self.tables.as_slice()[table as usize]
    }

    /// The characters of a row, one for each signal, 0 for a signal without one.
    pub fn row(&self, row: u32) -> &[u8]
        requires { row < length self.now.rows }
        ensures { slice_get self.now.rows row ≡ Some result.now }
    {
        self.rows.row(row as usize)
    }

    /// An executive.
    pub fn exec(&self, exec: u16) -> &CodeExec
        requires { exec < length self.now.execs }
        ensures { result.now ≡ exec_of self.now exec }
    {
        &self.execs.as_slice()[exec as usize]
    }

    /// The name of an executive, empty where it has none.
    pub fn exec_name(&self, exec: u16) -> &[u8]
        requires { exec < length self.now.execs }
        ensures { result.now ≡ (exec_of self.now exec).name }
    {
        self.exec(exec).name()
    }

    /// The scan chains of an executive.
    pub fn chains(&self, exec: u16) -> &CodeChainList
        requires { exec < length self.now.execs }
        ensures { result.now ≡ (exec_of self.now exec).chains }
    {
        self.exec(exec).chains()
    }

    /// The instructions of an executive, in order, packed.
    pub fn instructions(&self, exec: u16) -> &[PackedInstr]
        requires { exec < length self.now.execs }
        ensures { result.now ≡ (exec_of self.now exec).instrs }
    {
        self.exec(exec).instrs()
    }

    /// How many instructions an executive has.
    pub fn instrs(&self, exec: u16) -> u32
        requires { exec < length self.now.execs }
        ensures { result ≡ length (exec_of self.now exec).instrs }
    {
        self.execs.as_slice()[exec as usize].instrs().len() as u32
    }

    /// The instruction of an executive at a place.
    pub fn instr(&self, exec: u16, place: u32) -> Instr
        requires exec { exec < length self.now.execs }
        requires place { place < length (exec_of self.now exec).instrs }
        ensures { slice_get (exec_of self.now exec).instrs place ≡ Some result }
    {
        self.instructions(exec)[place as usize].instr()
    }

    /// How many cycles an executive has.
    pub fn cycles(&self, exec: u16) -> u64
        requires { exec < length self.now.execs }
        ensures { result ≡ length (Means (exec_of self.now exec).instrs) }
    {
        self.exec(exec).cycles()
    }

    /// The signals, in declared order.
    pub fn signal_list(&self) -> &[CodeSignal]
        ensures { result.now ≡ self.now.signals }
    {
        self.signals.as_slice()
    }

    /// The tables, in order.
    pub fn table_list(&self) -> &[Table]
        ensures { result.now ≡ self.now.tables }
    {
        self.tables.as_slice()
    }

    /// The rows, in order.
    pub fn row_list(&self) -> &RowList
        ensures { result.now ≡ self.now.rows }
    {
        &self.rows
    }

    /// The executives, in order.
    pub fn exec_list(&self) -> &[CodeExec]
        ensures { result.now ≡ self.now.execs }
    {
        self.execs.as_slice()
    }

    /// How many pages of 256 instructions the executives fill, each beginning a page of its own.
    pub fn pages(&self) -> u32
        ensures { result ≡ length (pages_of self.now) }
    {
        self.pages_before(self.execs.len())
    }

    /// How many pages so many executives fill.
    fn pages_before(&self, count: usize) -> u32
        requires { count ≤ length self.now.execs }
        ensures exact { result ≡ length (flat_map pages_of_exec (take count self.now.execs)) }
        ensures few { result ≤ 16385 * count }
    {
        let mut pages = 0;
        for number in 0..count {
            pages += filled_pages(self.execs.as_slice()[number].instrs().len());
        }
        pages
    }

    /// The number of the page on which an executive's instruction stands. Its place there is the remainder of its
    /// place by 256.
    pub fn page_of(&self, exec: u16, place: u32) -> u32
        requires exec { exec < length self.now.execs }
        requires place { place < length (exec_of self.now exec).instrs }
        ensures number { result ≡ the_page_of self.now exec place }
        ensures there { result < length (pages_of self.now) }
        ensures stands { (page : List Instr) × (slice_get (pages_of self.now) result ≡ Some page)
            × (slice_get page (offset_of place) ≡ slice_get (exec_of self.now exec).instrs place) }
    {
        self.pages_before(exec as usize) + place / PAGE as u32
    }

    /// The instructions of a page, in order, packed: 256, or fewer where it is the last of its executive.
    pub fn page(&self, page: u32) -> &[PackedInstr]
        requires { page < length (pages_of self.now) }
        ensures { slice_get (pages_of self.now) page ≡ Some result.now }
    {
        let mut left = page as usize;
        for exec in self.execs.as_slice() {
            let pages = filled_pages(exec.instrs().len()) as usize;
            if left < pages {
                return piece(exec.instrs(), left);
            }
            left -= pages;
        }
        &[]
    }
}

/// The page of a number, of an executive with these instructions.
fn piece(instrs: &[PackedInstr], page: usize) -> &[PackedInstr]
    requires { page < page_count (length instrs.now) }
    ensures { result.now ≡ take 256 (drop (256 * page) instrs.now) }
{
    let rest = &instrs[page * PAGE..];
    &rest[..rest.len().min(PAGE)]
}

/// How many pages so many instructions of an executive fill.
fn filled_pages(instrs: usize) -> u32
    requires { instrs ≤ 4194305 }
    ensures exact { result ≡ page_count instrs }
    ensures few { result ≤ 16385 }
{
    (instrs + PAGE - 1) as u32 / PAGE as u32
}
