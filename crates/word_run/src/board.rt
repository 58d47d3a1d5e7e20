//! 64 dies between two moments, and what goes along with them.
ghost use Rattle.std.specs.Prelude.{◌≡◌, ℕ, ◌<◌, ◌≤◌, None, length, replicate, min, IfOk, OnOk, slice_index_or};
ghost use Rattle.std.specs.Int.{bit_at};
ghost use Rattle.text_bytes.specs.Limits.{most_signals};
ghost use Rattle.tester_types.specs.declared.level.Drive.{Drive};
ghost use Rattle.tester_types.specs.declared.level.Drive.TheVariants as drive;
ghost use Rattle.bench_net.specs.Circuit.{IsWhole};
ghost use Rattle.die_sim.specs.Die.{Device, State};
ghost use Rattle.die_sim.specs.Stepped.{stepped};
ghost use Rattle.strobe_check.specs.Entry.{looks_at};
ghost use Rattle.strobe_check.specs.Step.{window_after};
ghost use Rattle.site_meaning.specs.Playing.{Along, after_moment};
ghost use Rattle.cycle_run.specs.Step.{IsMomentOf};
ghost use Rattle.die_words.specs.Lane.{bit};
ghost use Rattle.die_words.specs.Lanes.{IsLaneOf};
ghost use Rattle.word_run.specs.Judge.{are_met};
ghost use Rattle.word_run.specs.Board.{IsBoardOf, StandsAt};

use crate::judge::meet_all;
use crate::looks::put_windows;
use cycle_run::{bound_signals, collect, remember, unknown_drives};
use die_sim::DieImage;
use die_words::DieWords;
use std::alloc::{AllocError, Global};
use tester_types::{Drive, Look, Moment, NoMemory};

/// 64 dies that are driven alike, and what goes along with them from moment to moment.
#[derive(Drop)]
pub(crate) struct Board {
    pub(crate) dies: DieWords,
    /// Whether each signal is looked at.
    pub(crate) bound: Vec<bool>,
    /// The last Down or Up of each signal, or Unknown.
    pub(crate) last: Vec<Drive>,
    /// Room for the drives of a moment.
    pub(crate) drives: Vec<(u16, Drive)>,
    /// The window that is open at each signal, in dies without a fail in the cycle.
    pub(crate) windows: Vec<Option<Look>>,
}

/// No window at each signal.
fn no_windows(alloc: Global, signals: u16) -> Result<Vec<Option<Look>>, AllocError>
    ensures { IfOk result (λ windows. windows.items ≡ replicate signals None) }
{
    vec![in alloc; None; usize::from(signals)]
}

impl Board {
    /// Room for the dies of an image's netlist, with so many signals. Nothing is said yet of what stands in their lanes.
    pub(crate) fn make(alloc: Global, image: &DieImage, signals: u16) -> Result<Board, NoMemory>
        requires { signals ≡ length image.now.binds }
        ensures of { IfOk result (λ board. IsBoardOf image.now board) }
        ensures last { IfOk result (λ board. board.last.items ≡ replicate signals drive.Unknown) }
    {
        Ok(Board {
            dies: DieWords::make(alloc, image)?,
            bound: bound_signals(alloc, image, signals)?,
            last: unknown_drives(alloc, signals)?,
            drives: Vec::new(alloc),
            windows: no_windows(alloc, signals)?,
        })
    }
}

/// Drives the dies, if there is anything to drive. No drives leave them as they are.
fn drive_all(dies: &mut DieWords, drives: &[(u16, Drive)])
    requires { IsWhole dies.old.image.circuit }
    ensures image { dies.new.image ≡ dies.old.image }
    ensures lanes { (k : ℕ) (device : Device) (state : State) → k < 64 → IsLaneOf dies.old k device state
        → IsLaneOf dies.new k device (stepped device state drives.now) }
{
    if drives.is_empty() {
        return;
    }
    dies.step(drives);
}

/// A moment: the dies are driven, and of these lanes those are left in whose dies each look that is checked then is met.
pub(crate) fn play_moment(
    board: &mut Board,
    image: &DieImage,
    moment: &Moment,
    alive: u64,
) -> Result<u64, AllocError>
    requires whole { IsWhole image.now.circuit }
    requires few { length image.now.binds ≤ most_signals }
    requires of { IsBoardOf image.now board.old }
    requires moment { IsMomentOf (length image.now.binds) moment.now }
    ensures of { IsBoardOf image.now board.new }
    ensures lanes { OnOk result ((k : ℕ) (device : Device) (along : Along) → k < 64
        → StandsAt board.old k device along → StandsAt board.new k device (after_moment device along moment.now)) }
    ensures windows { OnOk result ((signal : ℕ) → signal < length image.now.binds
        → slice_index_or board.new.windows.items signal None
        ≡ window_after (slice_index_or board.old.windows.items signal None) (looks_at signal moment.now)) }
    ensures met { IfOk result (λ left. (k : ℕ) (device : Device) (along : Along) → k < 64
        → StandsAt board.old k device along → bit_at left k ≡ min (bit_at alive k)
        (bit (are_met board.new.bound.items device (after_moment device along moment.now).die board.new.windows.items
        moment.now.looks))) }
{
    let looks = moment.looks.as_slice();
    collect(
        image,
        board.last.as_slice(),
        moment.drives.as_slice(),
        &mut board.drives,
    )?;
    drive_all(&mut board.dies, board.drives.as_slice());
    remember(&mut board.last, moment.drives.as_slice());
    put_windows(&mut board.windows, looks);
    Ok(meet_all(
        &board.dies,
        board.bound.as_slice(),
        board.windows.as_slice(),
        looks,
        alive,
    ))
}
