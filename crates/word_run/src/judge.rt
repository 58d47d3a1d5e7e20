//! A moment is judged in 64 dies: those are left in which each look that is checked then is met.
ghost use Rattle.std.specs.Prelude.{◌≡◌, ℕ, ◌<◌, ◌≤◌, false, min, length, slice_index_or};
ghost use Rattle.std.specs.Int.{bit_at};
ghost use Rattle.std.specs.List.{list_all, range_with_len};
ghost use Rattle.text_bytes.specs.Limits.{most_signals};
ghost use Rattle.die_sim.specs.Die.{Device, State, level_of};
ghost use Rattle.strobe_check.specs.Look.{is_met};
ghost use Rattle.die_words.specs.Lane.{bit};
ghost use Rattle.die_words.specs.Lanes.{IsLaneOf};
ghost use Rattle.word_run.specs.Judge.{edge_met, window_met, are_met};

use crate::looks::window_at;
use die_words::DieWords;
use strobe_check::is_edge;
use tester_types::Look;

/// Whether a signal is looked at.
fn is_looked_at(bound: &[bool], signal: u16) -> bool
    ensures { result ≡ slice_index_or bound.now signal false }
{
    if usize::from(signal) < bound.len() {
        bound[usize::from(signal)]
    } else {
        false
    }
}

/// Of these lanes those in whose dies a look at a signal is met.
fn meet(dies: &DieWords, signal: u16, look: Look, alive: u64) -> u64
    ensures { (k : ℕ) (device : Device) (state : State) → k < 64 → IsLaneOf dies.now k device state
        → bit_at result k ≡ min (bit_at alive k) (bit (is_met look (level_of device state signal))) }
{
    alive & !dies.failing(signal, look)
}

/// The same of an edge look; a look at a signal that isn't looked at is met.
fn meet_edge(dies: &DieWords, bound: &[bool], signal: u16, look: Look, alive: u64) -> u64
    ensures { (k : ℕ) (device : Device) (state : State) → k < 64 → IsLaneOf dies.now k device state
        → bit_at result k ≡ min (bit_at alive k) (bit (edge_met bound.now device state (signal, look))) }
{
    if !is_edge(look) {
        return alive;
    }
    if !is_looked_at(bound, signal) {
        return alive;
    }
    meet(dies, signal, look, alive)
}

/// The same of the edge looks of a moment.
fn meet_edges(dies: &DieWords, bound: &[bool], looks: &[(u16, Look)], alive: u64) -> u64
    ensures { (k : ℕ) (device : Device) (state : State) → k < 64 → IsLaneOf dies.now k device state
        → bit_at result k ≡ min (bit_at alive k) (bit (list_all (edge_met bound.now device state) looks.now)) }
{
    let mut left = alive;
    for (signal, look) in looks {
        left = meet_edge(dies, bound, *signal, *look, left);
    }
    left
}

/// The same of the window of a signal, if one is open.
fn meet_window(
    dies: &DieWords,
    bound: &[bool],
    windows: &[Option<Look>],
    signal: u16,
    alive: u64,
) -> u64
    ensures { (k : ℕ) (device : Device) (state : State) → k < 64 → IsLaneOf dies.now k device state
        → bit_at result k ≡ min (bit_at alive k) (bit (window_met bound.now device state windows.now signal)) }
{
    match window_at(windows, usize::from(signal)) {
        None => alive,
        Some(look) => {
            if is_looked_at(bound, signal) {
                meet(dies, signal, look, alive)
            } else {
                alive
            }
        }
    }
}

/// The same of all windows.
fn meet_windows(dies: &DieWords, bound: &[bool], windows: &[Option<Look>], alive: u64) -> u64
    requires few { length windows.now ≤ most_signals }
    ensures { (k : ℕ) (device : Device) (state : State) → k < 64 → IsLaneOf dies.now k device state
        → bit_at result k ≡ min (bit_at alive k)
        (bit (list_all (window_met bound.now device state windows.now) (range_with_len 0 (length windows.now)))) }
{
    let mut left = alive;
    for signal in 0..windows.len() {
        left = meet_window(dies, bound, windows, signal as u16, left);
    }
    left
}

/// Of these lanes those in whose dies each look that is checked at a moment is met: its edge looks, and the windows that are
/// open behind its looks.
pub(crate) fn meet_all(
    dies: &DieWords,
    bound: &[bool],
    windows: &[Option<Look>],
    looks: &[(u16, Look)],
    alive: u64,
) -> u64
    requires few { length windows.now ≤ most_signals }
    ensures { (k : ℕ) (device : Device) (state : State) → k < 64 → IsLaneOf dies.now k device state
        → bit_at result k ≡ min (bit_at alive k) (bit (are_met bound.now device state windows.now looks.now)) }
{
    let left = meet_edges(dies, bound, looks, alive);
    meet_windows(dies, bound, windows, left)
}
