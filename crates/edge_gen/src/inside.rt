//! Whether waveforms, moved by skews, stay inside their cycle.

ghost use Rattle.std.specs.Prelude.{◌≡◌, List, ℕ, length, true};
ghost use Rattle.edge_gen.specs.Signals.{stays_inside, stay_inside, keeps_inside, skew_of, FitSkews};

use tester_types::{Table, Wave};

/// Only tests and measurements call it: whether each event of each waveform of a table stays inside the cycle where the skew
/// of its signal, in femtoseconds, moves it. A signal beyond the skews has none.
pub fn keep_inside(table: &Table, skews: &[i64]) -> bool
    ensures exact { result ≡ keeps_inside table.now skews.now }
    ensures rows { result ≡ true → (row : List ℕ) → length skews.now ≡ length row → FitSkews table.now row skews.now }
{
    each_wave(table, skews)
}

/// The same.
fn each_wave(table: &Table, skews: &[i64]) -> bool
    ensures { result ≡ keeps_inside table.now skews.now }
{
    table.waves.as_slice().iter().all(|wave| stays_inside(
        wave,
        table.period,
        skew_of(skews, wave.signal),
    ))
}

/// The skew of a signal.
fn skew_of(skews: &[i64], signal: u16) -> i64
    ensures { result ≡ skew_of skews.now signal }
{
    match skews.get(usize::from(signal)) {
        Some(skew) => *skew,
        None => 0,
    }
}

/// Whether each event of a waveform stays inside a cycle of this period where a skew moves it, all in
/// femtoseconds.
pub fn stays_inside(wave: &Wave, period: u64, skew: i64) -> bool
    ensures { result ≡ stay_inside period skew wave.now.events }
{
    wave.events
        .as_slice()
        .iter()
        .all(|event| is_inside(event.time, period, skew))
}

/// Whether a time stays inside a cycle of this period where a skew moves it.
fn is_inside(time: u64, period: u64, skew: i64) -> bool
    ensures { result ≡ stays_inside period skew time }
{
    match time.checked_add_signed(skew) {
        Some(moved) => moved < period,
        None => false,
    }
}
