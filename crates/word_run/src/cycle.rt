//! One cycle of 64 dies.
ghost use Rattle.std.specs.Prelude.{◌≡◌, ℕ, ◌<◌, ◌≤◌, [], All, length, min, IfOk, OnOk};
ghost use Rattle.std.specs.Int.{bit_at};
ghost use Rattle.text_bytes.specs.Limits.{most_signals};
ghost use Rattle.bench_net.specs.Circuit.{IsWhole};
ghost use Rattle.packed_code.specs.Walk.{IsOf};
ghost use Rattle.die_sim.specs.Die.{Device};
ghost use Rattle.site_meaning.specs.Playing.{Going, along_of, played_cycle, after_cycle};
ghost use Rattle.cycle_run.specs.Cycle.{stand_of};
ghost use Rattle.cycle_run.specs.Step.{IsScheduled, HoldsSchedules};
ghost use Rattle.cycle_run.specs.Setup.{IsSetUp, code_in};
ghost use Rattle.die_words.specs.Lane.{bit};
ghost use Rattle.word_run.specs.Board.{IsBoardOf, StandsAt, AreWindows, PlaysMoments, is_clear};

use crate::board::{Board, play_moment};
use crate::looks::close_all;
use cycle_run::Setup;
use die_sim::DieImage;
use edge_gen::Schedules;
use tester_types::{Cycle, Moment, NoMemory};

/// The moments of a cycle, one after another. Of these lanes those are left in whose dies none fails.
fn play_moments(
    board: &mut Board,
    image: &DieImage,
    moments: &[Moment],
    alive: u64,
) -> Result<u64, NoMemory>
    requires whole { IsWhole image.now.circuit }
    requires few { length image.now.binds ≤ most_signals }
    requires of { IsBoardOf image.now board.old }
    requires closed { AreWindows (length image.now.binds) [] board.old.windows.items }
    requires moments { All (IsScheduled (length image.now.binds)) moments.now }
    ensures of { IsBoardOf image.now board.new }
    ensures plays { IfOk result (λ left. PlaysMoments moments.now alive left board.old board.new) }
{
    let mut left = alive;
    for moment in moments {
        left = play_moment(board, image, moment, left)?;
    }
    Ok(left)
}

/// The moments of a schedule as a cycle of its own.
fn play_scheduled(
    board: &mut Board,
    image: &DieImage,
    moments: &[Moment],
    alive: u64,
) -> Result<u64, NoMemory>
    requires whole { IsWhole image.now.circuit }
    requires few { length image.now.binds ≤ most_signals }
    requires of { IsBoardOf image.now board.old }
    requires moments { All (IsScheduled (length image.now.binds)) moments.now }
    ensures of { IsBoardOf image.now board.new }
    ensures plays { IfOk result (λ left. PlaysMoments moments.now alive left board.old board.new) }
{
    close_all(&mut board.windows);
    play_moments(board, image, moments, alive)
}

/// The next cycle. Of these lanes those are left in whose dies it has no fail.
pub(crate) fn play_cycle(
    board: &mut Board,
    schedules: &mut Schedules,
    setup: &Setup,
    cycle: Cycle,
    alive: u64,
) -> Result<u64, NoMemory>
    requires set_up { IsSetUp setup.now }
    requires of { IsOf (code_in setup.now) cycle.table cycle.row }
    requires held { HoldsSchedules (code_in setup.now) setup.now.skews.now schedules.old }
    requires board { IsBoardOf setup.now.image.now board.old }
    ensures board { IsBoardOf setup.now.image.now board.new }
    ensures held { HoldsSchedules (code_in setup.now) setup.now.skews.now schedules.new }
    ensures lanes { OnOk result ((k : ℕ) (device : Device) (going : Going) → k < 64
        → StandsAt board.old k device (along_of going) → StandsAt board.new k device
        (along_of (after_cycle (stand_of (code_in setup.now) setup.now.skews.now device) going cycle))) }
    ensures clear { IfOk result (λ left. (k : ℕ) (device : Device) (exec : ℕ) (going : Going) → k < 64
        → StandsAt board.old k device (along_of going) → bit_at left k ≡ min (bit_at alive k)
        (bit (is_clear (played_cycle (stand_of (code_in setup.now) setup.now.skews.now device) exec going
        cycle).fails))) }
{
    let code = setup.code;
    let _signals = code.signals();
    let table = code.table(cycle.table);
    let row = code.row(cycle.row);
    match schedules.of(cycle.table, cycle.row, table, row, setup.skews) {
        Ok(moments) => play_scheduled(board, setup.image, moments.as_slice(), alive),
        Err(_) => Err(NoMemory),
    }
}
