//! The moments of a program's cycles, made once for each table and row that is run, as far as they fit.

ghost use Rattle.std.specs.Prelude.{◌≡◌, ◌<◌, ℤ, List, length, IfOk, IfSome, OnOk};
ghost use Rattle.packed_code.specs.Program.{Program};
ghost use Rattle.packed_code.specs.Cycles.{exec_of};
ghost use Rattle.packed_code.specs.Walk.{IsOf};
ghost use Rattle.cycle_run.specs.Step.{FitCode, schedule_of};
ghost use Rattle.cycle_run.specs.Lent.{HoldsMoments};

use edge_gen::schedule;
use indexmap::IndexMap;
use packed_code::{Code, Instr};
use std::alloc::Global;
use std::marker::Model;
use tester_types::{Moment, MomentList, NoMemory};

/// How many bytes they may take: 64 MiB.
const MOST_BYTES: u64 = 67_108_864;

/// How many bytes a moment takes at most, and a drive or a look of it: a list has at most twice the room that it needs.
const MOMENT_BYTES: u64 = 128;

const EVENT_BYTES: u64 = 32;

/// Moments that are lent, dated from 0, by the numbers of their tables and rows.
#[derive(Drop)]
pub struct Lent {
    moments: IndexMap<(u16, u32), MomentList>,
    /// How many bytes there are left.
    left: u64,
}

impl Model for Lent {
    ghost use Rattle.std.specs.Prelude.{List, ℕ};
    ghost use Rattle.tester_types.specs.declared.cycle.Moment.{Moment};

    ghost Value = { List ((ℕ × ℕ) × List Moment) };

    ghost view = { λ l. l.moments.entries };
}

impl Lent {
    /// The moments of the cycles that a code runs, where signals have these skews.
    pub fn make(alloc: Global, code: &Code, skews: &[i64]) -> Result<Lent, NoMemory>
        requires { FitCode code.now skews.now }
        ensures { IfOk result (λ lent. HoldsMoments code.now skews.now lent) }
    {
        let mut lent = Lent {
            moments: IndexMap::new(alloc),
            left: MOST_BYTES,
        };
        for exec in 0..code.execs() {
            lent.hold_exec(alloc, code, skews, exec)?;
        }
        Ok(lent)
    }

    /// The moments of a table and a row, if they are held.
    pub(crate) fn get(&self, table: u16, row: u32) -> Option<&MomentList>
        ensures { (code : Program) (skews : List ℤ) → HoldsMoments code skews self.now
            → IfSome result (λ moments. moments.now ≡ schedule_of code skews (table, row)) }
    {
        self.moments.get(&(table, row))
    }

    /// Holds the moments of the cycles that an executive runs.
    fn hold_exec(
        &mut self,
        alloc: Global,
        code: &Code,
        skews: &[i64],
        exec: u16,
    ) -> Result<(), NoMemory>
        requires skews { FitCode code.now skews.now }
        requires exec { exec < length code.now.execs }
        requires held { HoldsMoments code.now skews.now self.old }
        ensures { OnOk result (HoldsMoments code.now skews.now self.new) }
    {
        for place in 0..code.instrs(exec) {
            if let Some((table, row)) = run_at(code, exec, place) {
                self.hold(alloc, code, skews, table, row)?;
            }
        }
        Ok(())
    }

    /// Holds the moments of a table and a row, unless they are held or there is no more room.
    fn hold(
        &mut self,
        alloc: Global,
        code: &Code,
        skews: &[i64],
        table: u16,
        row: u32,
    ) -> Result<(), NoMemory>
        requires of { IsOf code.now table row }
        requires skews { FitCode code.now skews.now }
        requires held { HoldsMoments code.now skews.now self.old }
        ensures { OnOk result (HoldsMoments code.now skews.now self.new) }
    {
        if self.left == 0 || self.moments.contains_key(&(table, row)) {
            return Ok(());
        }
        let moments = made(alloc, code, skews, table, row)?;
        let bytes = bytes_of(moments.as_slice());
        if bytes > self.left {
            self.left = 0;
            return Ok(());
        }
        self.left -= bytes;
        self.moments.insert((table, row), moments)?;
        Ok(())
    }
}

/// The moments of a table and a row.
fn made(
    alloc: Global,
    code: &Code,
    skews: &[i64],
    table: u16,
    row: u32,
) -> Result<MomentList, NoMemory>
    requires of { IsOf code.now table row }
    requires skews { FitCode code.now skews.now }
    ensures { IfOk result (λ moments. moments ≡ schedule_of code.now skews.now (table, row)) }
{
    let _signals = code.signals();
    schedule(alloc, code.table(table), code.row(row), 0, skews)
}

/// The table and the row that an instruction runs, if it runs any.
fn run_at(code: &Code, exec: u16, place: u32) -> Option<(u16, u32)>
    requires exec { exec < length code.now.execs }
    requires place { place < length (exec_of code.now exec).instrs }
    ensures { IfSome result (λ pair. IsOf code.now pair.0 pair.1) }
{
    let _signals = code.signals();
    match code.instr(exec, place) {
        Instr::Run {
            table,
            row,
            mark: _,
            times: _,
        } => Some((table, row)),
        Instr::Loop { times: _ } => None,
        Instr::End => None,
        Instr::Done => None,
    }
}

/// How many bytes moments take at most.
fn bytes_of(moments: &[Moment]) -> u64 {
    let mut bytes: u64 = 0;
    for moment in moments {
        let events = (moment.drives.len() as u64).saturating_add(moment.looks.len() as u64);
        bytes = bytes
            .saturating_add(MOMENT_BYTES)
            .saturating_add(events.saturating_mul(EVENT_BYTES));
    }
    bytes
}
