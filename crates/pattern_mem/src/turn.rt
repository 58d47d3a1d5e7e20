//! The turn of a pool: a pass takes it, asks the pool, and gives it back.

ghost use Rattle.std.specs.Prelude.{◌≡◌, ◌<◌, OnOk, OnErr, Some, length};
ghost use Rattle.packed_code.specs.Cycles.{pages_of};
ghost use Rattle.pattern_mem.specs.Memory.{basis_in};
ghost use Rattle.pattern_mem.specs.Pool.{page_at};
ghost use Rattle.pattern_mem.specs.Steps.{IsPass, HoldsPool};

use crate::memory::{PatternMem, PoolSeat};
use crate::pool::Fetched;
use crate::steps::{Give, Take};
use crate::window::Window;
use std::sync::Wait;
use std::thread::yield_now;
use tester_types::NoMemory;

/// The word that is 1 while a pass holds the pool.
const TURN: usize = 0;

/// The slot of the pool.
const POOL: usize = 0;

/// Takes the turn, and with it the pool. It waits until it has it.
pub(crate) fn take<R: Wait>(rt: &R, mem: &PatternMem, seat: &mut PoolSeat)
    requires memory { seat.old.table_id ≡ mem.now.table }
    requires pass { IsPass seat.old.me (basis_in mem.now) }
    ensures memory { seat.new.table_id ≡ seat.old.table_id }
    ensures holds { HoldsPool seat.new.me (basis_in mem.now) }
{
    for _ in rt.forever() {
        if mem.table.shared.compare_exchange::<Take>(seat, TURN, 0, 1) == 0 {
            return;
        }
        yield_now();
    }
    unreachable!()
}

/// Shows a page of the pool that the seat holds.
pub(crate) fn fetch(
    mem: &PatternMem,
    seat: &mut PoolSeat,
    page: u32,
    window: &mut Window,
) -> Result<Fetched, NoMemory>
    requires memory { seat.old.table_id ≡ mem.now.table }
    requires holds { HoldsPool seat.old.me (basis_in mem.now) }
    requires page { page < length (pages_of mem.now.code) }
    ensures memory { seat.new.table_id ≡ seat.old.table_id }
    ensures holds { HoldsPool seat.new.me (basis_in mem.now) }
    ensures window { OnOk result (window.new ≡ Some (page, page_at mem.now.code page)) }
    ensures window_as_it_was { OnErr result (window.new ≡ window.old) }
{
    let pool = seat.slot_mut(&mem.table.shared, POOL);
    pool.fetch(page, window)
}

/// Gives the turn back, and with it the pool.
pub(crate) fn give(mem: &PatternMem, seat: &mut PoolSeat)
    requires memory { seat.old.table_id ≡ mem.now.table }
    requires holds { HoldsPool seat.old.me (basis_in mem.now) }
    ensures memory { seat.new.table_id ≡ seat.old.table_id }
    ensures pass { IsPass seat.new.me (basis_in mem.now) }
{
    mem.table.shared.store::<Give>(seat, TURN, 0);
}
