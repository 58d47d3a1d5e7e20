//! What gates give, from one table over pairs of levels.
ghost use Rattle.std.specs.Prelude.{◌≡◌, ℕ, ◌<◌, List, length, All};
ghost use Rattle.tester_types.specs.declared.level.Level.{Level};
ghost use Rattle.bench_net.specs.Gates.{zeros, ones};
ghost use Rattle.die_sim.specs.Table.{entries, base_of, unit_of, gives, pair_of, row_of, single_row};

use bench_net::GateKind;
use tester_types::Level;
use tester_types::Level::{One, X, Z, Zero};

/// A row of the table: a gate's function of two levels, or 0 or 1 whatever they are.
#[derive(Clone, Copy, Debug, PartialEq, Eq)]
pub(crate) enum Row {
    And,
    Nand,
    Or,
    Nor,
    Xor,
    Xnor,
    Low,
    High,
}

/// For each row, each first and each second level what the row gives.
const TABLE: &[Level] = &[
    // AND
    Zero, Zero, Zero, Zero, Zero, One, X, X, Zero, X, X, X, Zero, X, X, X,
    // NAND
    One, One, One, One, One, Zero, X, X, One, X, X, X, One, X, X, X,
    // OR
    Zero, One, X, X, One, One, One, One, X, One, X, X, X, One, X, X,
    // NOR
    One, Zero, X, X, Zero, Zero, Zero, Zero, X, Zero, X, X, X, Zero, X, X,
    // XOR
    Zero, One, X, X, One, Zero, X, X, X, X, X, X, X, X, X, X,
    // XNOR
    One, Zero, X, X, Zero, One, X, X, X, X, X, X, X, X, X, X,
    // always 0
    Zero, Zero, Zero, Zero, Zero, Zero, Zero, Zero, Zero, Zero, Zero, Zero, Zero, Zero, Zero, Zero,
    // always 1
    One, One, One, One, One, One, One, One, One, One, One, One, One, One, One, One,
];

/// The table's entries.
fn table() -> &'static [Level]
    ensures { result.now ≡ entries }
{
    TABLE
}

/// What a row gives for two levels.
pub(crate) fn looked_up(row: Row, first: Level, second: Level) -> Level
    ensures { result ≡ pair_of row first second }
{
    table()[row as usize * 16 + first as usize * 4 + second as usize]
}

/// The row without its negation.
fn base_of(row: Row) -> Row
    ensures { result ≡ base_of row }
{
    match row {
        Row::And | Row::Nand => Row::And,
        Row::Or | Row::Nor => Row::Or,
        Row::Xor | Row::Xnor => Row::Xor,
        Row::Low => Row::Low,
        Row::High => Row::High,
    }
}

/// What the row without its negation gives for no level.
fn unit_of(row: Row) -> Level
    ensures { result ≡ unit_of row }
{
    match row {
        Row::And | Row::Nand | Row::High => One,
        Row::Or | Row::Nor | Row::Xor | Row::Xnor | Row::Low => Zero,
    }
}

/// What a row gives for the levels of these nets.
pub(crate) fn many_of(row: Row, levels: &[Level], pins: &[u32]) -> Level
    requires { All (λ p. p < length levels.now) pins.now }
    ensures { result ≡ gives row (zeros levels.now pins.now) (ones levels.now pins.now) (length pins.now) }
{
    let base = base_of(row);
    let unit = unit_of(row);
    let mut level = unit;
    for pin in pins {
        level = looked_up(base, level, levels[*pin as usize]);
    }
    looked_up(row, unit, level)
}

/// The row of a gate.
pub(crate) fn row_of(kind: GateKind) -> Row
    ensures { result ≡ row_of kind }
{
    match kind {
        GateKind::And | GateKind::Buf => Row::And,
        GateKind::Nand | GateKind::Not => Row::Nand,
        GateKind::Or => Row::Or,
        GateKind::Nor => Row::Nor,
        GateKind::Xor => Row::Xor,
        GateKind::Xnor => Row::Xnor,
    }
}

/// The row that gives for one level twice what a row gives for it once.
pub(crate) fn single_row(row: Row) -> Row
    ensures { result ≡ single_row row }
{
    match row {
        Row::And | Row::Xor => Row::And,
        Row::Nand | Row::Xnor => Row::Nand,
        Row::Or => Row::Or,
        Row::Nor => Row::Nor,
        Row::Low => Row::Low,
        Row::High => Row::High,
    }
}
