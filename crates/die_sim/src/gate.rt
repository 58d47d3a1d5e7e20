//! The level that a gate gives.
ghost use Rattle.std.specs.Prelude.{◌≡◌, ◌<◌, length};
ghost use Rattle.bench_net.specs.Gates.{read, level_at};
ghost use Rattle.die_sim.specs.Table.{pair_of};

use crate::table::{Row, looked_up};
use tester_types::Level;

/// A level as it is read: off is unknown.
pub(crate) fn read(level: Level) -> Level
    ensures { result ≡ read level }
{
    match level {
        Level::Zero => Level::Zero,
        Level::One => Level::One,
        Level::X | Level::Z => Level::X,
    }
}

/// What a row gives for the levels of two nets.
pub(crate) fn pair_level(row: Row, levels: &[Level], first: u32, second: u32) -> Level
    requires first { first < length levels.now }
    requires second { second < length levels.now }
    ensures { result ≡ pair_of row (level_at levels.now first) (level_at levels.now second) }
{
    looked_up(row, levels[first as usize], levels[second as usize])
}
