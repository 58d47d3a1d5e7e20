//! The moments of a cycle: from a waveform table and a row of characters to the dated instants at which
//! signals are driven and looked at.
#![tactic(auto)]

ghost use Rattle.std.specs.Prelude.{◌≡◌, ◌<◌, ◌^◌, IfOk};
ghost use Rattle.edge_gen.specs.Signals.{FitSkews};
ghost use Rattle.edge_gen.specs.Moments.{moments_of};

mod dated;
mod inside;
mod laws;
mod moments;
mod schedules;
mod waves;

pub use inside::{keep_inside, stays_inside};
pub use laws::moments_of_a_later_cycle;
pub use schedules::{HELD_SCHEDULES, Schedules};
use std::alloc::Global;
use tester_types::{MomentList, NoMemory, Table};

/// The moments of the cycle that begins at `start`, in femtoseconds, with this table and this row, which
/// has one character a signal and 0 for a signal without one. Each signal's events are moved by its skew, in
/// femtoseconds, which keeps them inside the cycle, as `keep_inside` tells of a whole table.
///
/// A wave of a signal beyond the row has no part in the cycle. Where the table's waves rise by signal and
/// character its time is at most in step with the number of signals times the logarithm of how many waves one
/// has, and with that of the cycle's events times its logarithm. Where they don't rise it goes over all waves
/// for each signal.
pub fn schedule(
    alloc: Global,
    table: &Table,
    row: &[u8],
    start: u128,
    skews: &[i64],
) -> Result<MomentList, NoMemory>
    requires early { start < 2 ^ 127 }
    requires skews { FitSkews table.now row.now skews.now }
    ensures { IfOk result (λ moments. moments ≡ moments_of table.now row.now skews.now start) }
{
    let _period = table.period;
    let listed = table.waves.as_slice();
    let places = waves::places(alloc, &table.waves, row)?;
    let mut events = dated::events(alloc, listed, &places, skews)?;
    dated::sort(&mut events)?;
    moments::group(alloc, &events, start)
}
