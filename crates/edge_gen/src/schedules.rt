//! The schedules that were used last, so that a cycle of the same table and row isn't made again.

use crate::schedule;
use lru::LruCache;
use std::alloc::Global;
use std::marker::Model;
use std::num::NonZeroUsize;
use tester_types::{MomentList, NoMemory, Table};

/// How many schedules those hold who play cycles.
pub const HELD_SCHEDULES: usize = 64;

/// The moments of the cycles that were asked for last, dated from 0, by the numbers of their tables and rows.
#[derive(Drop)]
pub struct Schedules {
    alloc: Global,
    cache: LruCache<(u16, u32), MomentList>,
}

impl Model for Schedules {
    ghost use Rattle.edge_gen.specs.Held.{Held};

    ghost Value = { Held };

    ghost view = { λ s. s.cache };
}

impl Schedules {
    ghost use Rattle.std.specs.Prelude.{◌≡◌, ◌<◌, ◌≤◌, length, true, Some, IsOk, IfOk, OnOk, OnErr, option_map, slice_get};
    ghost use Rattle.std.specs.Borrow.{sem};
    ghost use Rattle.edge_gen.specs.Signals.{FitSkews};
    ghost use Rattle.edge_gen.specs.Moments.{moments_of};
    ghost use Rattle.edge_gen.specs.Held.{none_held, is_held, HoldsOnly, asked};
    ghost use Rattle.edge_gen.specs.Lending.{EndsAsked};

    /// Room for the schedules of so many pairs of a table and a row.
    pub fn new(alloc: Global, capacity: usize) -> Result<Schedules, NoMemory>
        requires { 1 ≤ capacity }
        ensures { IfOk result (λ held. held ≡ none_held capacity) }
    {
        let Some(room) = NonZeroUsize::new(capacity) else {
            unreachable!()
        };
        Ok(Schedules {
            alloc,
            cache: LruCache::new(alloc, room)?,
        })
    }

    /// The moments, dated from 0, of the cycle of a table and a row with these numbers, as `schedule` gives them.
    /// Moments that are held are lent again, which takes no memory. The numbers are then first among those
    /// that are held; where they weren't and there was no more room, the last are dropped. Where there is no
    /// memory all stays as it was.
    pub fn of(
        &mut self,
        table_number: u16,
        row_number: u32,
        table: &Table,
        row: &[u8],
        skews: &[i64],
    ) -> Result<&MomentList, NoMemory>
        requires skews { FitSkews table.now row.now skews.now }
        requires held { HoldsOnly self.old (table_number, row_number) (moments_of table.now row.now skews.now 0) }
        ensures moments { IfOk result (λ moments. moments.now ≡ moments_of table.now row.now skews.now 0) }
        ensures free { is_held (table_number, row_number) self.old ≡ true → IsOk result }
        ensures* ends { sem 𝓛 (EndsAsked self.entry (table_number, row_number)
            (moments_of table.now row.now skews.now 0) result) }
    {
        match self.hold((table_number, row_number), table, row, skews) {
            Ok(()) => Ok(self.first()),
            Err(fault) => Err(fault),
        }
    }

    /// Puts the moments of a pair of numbers first.
    fn hold(
        &mut self,
        pair: (u16, u32),
        table: &Table,
        row: &[u8],
        skews: &[i64],
    ) -> Result<(), NoMemory>
        requires skews { FitSkews table.now row.now skews.now }
        requires held { HoldsOnly self.old pair (moments_of table.now row.now skews.now 0) }
        ensures asked { OnOk result (self.new ≡ asked self.old pair (moments_of table.now row.now skews.now 0)) }
        ensures failed { OnErr result (self.new ≡ self.old) }
        ensures free { is_held pair self.old ≡ true → IsOk result }
    {
        if self.cache.promote(&pair) {
            return Ok(());
        }
        let moments = schedule(self.alloc, table, row, 0, skews)?;
        self.cache.put(pair, moments)?;
        Ok(())
    }

    /// The moments that are first.
    fn first(&self) -> &MomentList
        requires { 0 < length self.now.entries }
        ensures { Some result.now ≡ option_map (λ entry. entry.1) (slice_get self.now.entries 0) }
    {
        match self.cache.peek_mru() {
            Some((_, moments)) => moments,
            None => unreachable!(),
        }
    }
}
