//! A code in memory with its pool, and the passes with which threads ask the pool.

ghost use Rattle.std.specs.Prelude.{◌≡◌, ◌<◌, ◌≤◌, [], ◌∷◌, IfOk, OnOk, OnErr, Some, length, replicate};
ghost use Rattle.std.specs.Arc.{arc_value};
ghost use Rattle.packed_code.specs.Cycles.{pages_of};
ghost use Rattle.pattern_mem.specs.Pool.{page_at};
ghost use Rattle.pattern_mem.specs.Rule.{opener_view};
ghost use Rattle.pattern_mem.specs.Memory.{basis_in};
ghost use Rattle.pattern_mem.specs.declared.view.View.TheVariants.{Opener};

use crate::pool::{Fetched, PoolState};
use crate::steps::{Law, Make, Opening};
use crate::turn;
use crate::view::View;
use crate::window::Window;
use atomic_table::{Refused, Seat, Table};
use packed_code::Code;
use std::alloc::{AllocError, Global};
use std::marker::Model;
use std::sync::{Arc, Wait};
use tester_types::{Items, NoMemory};

/// A seat of the table in which a pool stands.
pub(crate) type PoolSeat = Seat<PoolState, View>;

/// A code, and the pool of its pages. Threads share it by reference. Contracts see it as its code, how many decoded pages
/// the pool has room for, and the identity of the pool.
#[derive(Drop)]
pub struct PatternMem {
    opening: Opening,
    pub(crate) table: Table<PoolState, View, Opening, Law, Global>,
}

impl Model for PatternMem {
    ghost use Rattle.std.specs.Prelude.{◌≡◌};
    ghost use Rattle.std.specs.Arc.{arc_value};
    ghost use Rattle.pattern_mem.specs.Memory.{Memory, memory_of};

    ghost Value = { Memory };

    ghost view = { λ m. memory_of m.table.shared.table_id
        (record { code = arc_value m.opening.0; frames = m.opening.1 }) };

    ghost invariant = { λ m. (m.table.shared.table_id.words ≡ 1) × (m.table.shared.table_id.slots ≡ 1) };
}

/// The right to ask a pool for pages. It is for one thread at a time. Contracts see it as the memory that it is for.
#[derive(Drop)]
pub struct PoolPass {
    seat: PoolSeat,
}

impl Model for PoolPass {
    ghost use Rattle.pattern_mem.specs.Memory.{Memory, memory_of};
    ghost use Rattle.pattern_mem.specs.Rule.{as_pass};
    ghost use Rattle.pattern_mem.specs.Steps.{IsPass};

    ghost Value = { Memory };

    ghost view = { λ p. memory_of p.seat.table_id (as_pass p.seat.me.0).basis };

    ghost invariant = { λ p. IsPass p.seat.me (as_pass p.seat.me.0).basis };
}

/// Passes for one memory.
pub type PassList = Items<PoolPass>;

impl PatternMem {
    /// A memory of this code with room for so many decoded pages, and so many passes for it. It is an `Err` only for want
    /// of memory.
    pub fn new(
        alloc: Global,
        code: Code,
        frames: u16,
        passes: u8,
    ) -> Result<(PatternMem, PassList), NoMemory>
        requires frames { (1 ≤ frames) × (frames ≤ 256) }
        ensures code { IfOk result (λ made. made.0.code ≡ code) }
        ensures frames { IfOk result (λ made. made.0.frames ≡ frames) }
        ensures passes { IfOk result (λ made. made.1 ≡ replicate passes made.0) }
    {
        let code = Arc::new(alloc, code)?;
        let pool = PoolState::new(alloc, Arc::try_clone(&code)?, frames)?;
        let mut slots = Vec::with_capacity(alloc, 1)?;
        slots.push(pool)?;
        let opening = (code, frames);
        let (table, mut opener) = match Table::new(alloc, &[0], slots, &opening) {
            Ok(made) => made,
            Err(Refused { slots: _ }) => return Err(NoMemory),
        };
        let mem = PatternMem { opening, table };
        let list = mem.passes(alloc, &mut opener, passes)?;
        Ok((mem, Items::from_vec(list)))
    }

    /// So many passes, of the opener's seat, which has made none.
    fn passes(
        &self,
        alloc: Global,
        opener: &mut PoolSeat,
        count: u8,
    ) -> Result<Vec<PoolPass>, AllocError>
        requires memory { opener.old.table_id ≡ self.now.table }
        requires opener { opener.old.me ≡ (Opener (opener_view 0 (basis_in self.now)), []) }
        ensures { IfOk result (λ passes. passes.items ≡ replicate count self.now) }
    {
        let mut passes = Vec::with_capacity(alloc, usize::from(count))?;
        for _ in 0..count {
            let seat = self.table.shared.split_seat::<Make>(opener);
            passes.push(PoolPass { seat })?;
        }
        Ok(passes)
    }

    /// The code.
    pub fn code(&self) -> &Code
        ensures { result.now ≡ self.now.code }
    {
        &self.opening.0
    }
}

impl PoolPass {
    /// Shows a page in the window, decoded. It waits until it has the pool, and gives it back in any case. It is an `Err`
    /// only for want of memory, and the window is as it was then.
    pub(crate) fn fetch<R: Wait>(
        &mut self,
        rt: &R,
        mem: &PatternMem,
        page: u32,
        window: &mut Window,
    ) -> Result<Fetched, NoMemory>
        requires memory { self.old ≡ mem.now }
        requires page { page < length (pages_of mem.now.code) }
        ensures memory { self.new ≡ self.old }
        ensures window { OnOk result (window.new ≡ Some (page, page_at mem.now.code page)) }
        ensures window_as_it_was { OnErr result (window.new ≡ window.old) }
    {
        turn::take(rt, mem, &mut self.seat);
        let fetched = turn::fetch(mem, &mut self.seat, page, window);
        turn::give(mem, &mut self.seat);
        fetched
    }
}
