//! A run of up to 64 faults.
ghost use Rattle.std.specs.Prelude.{◌≡◌, ℕ, ◌^◌, ◌-◌, ◌<◌, ◌≤◌, None, map, length, replicate, IfOk, OnOk, slice_index_or};
ghost use Rattle.std.specs.Int.{bit_at};
ghost use Rattle.die_sim.specs.Walk.{AreFaultsWithin};
ghost use Rattle.die_sim.specs.declared.image.StuckAt.{StuckAt};
ghost use Rattle.packed_code.specs.Cycles.{cycles_of};
ghost use Rattle.cycle_run.specs.Setup.{IsSetUp, code_in};
ghost use Rattle.word_run.specs.First.{first_on, with_fault};
ghost use Rattle.word_run.specs.Player.{IsBefore, StartsSo};
ghost use Rattle.word_run.specs.Run.{RunsExec, RunsAll};

use crate::board::Board;
use crate::player::WordPlayer;
use cycle_run::{Setup, play_cycles};
use die_sim::StuckAt;
use edge_gen::{HELD_SCHEDULES, Schedules};
use packed_code::walk;
use std::alloc::{AllocError, Global};
use tester_types::NoMemory;

/// So many lanes.
fn first_lanes(count: usize) -> u64
    requires { count ≤ 64 }
    ensures { (k : ℕ) → k < count → bit_at result k ≡ 1 }
{
    if count == 64 {
        u64::MAX
    } else {
        (1u64 << count) - 1
    }
}

/// No failing cycle so far for so many lanes.
fn none_found(alloc: Global, count: usize) -> Result<Vec<Option<u64>>, AllocError>
    ensures { IfOk result (λ firsts. firsts.items ≡ replicate count None) }
{
    vec![in alloc; None; count]
}

/// Dies with these faults before the first executive, each in a lane of its own.
fn start(alloc: Global, setup: &Setup, faults: &[StuckAt]) -> Result<WordPlayer, NoMemory>
    requires set_up { IsSetUp setup.now }
    requires few { length faults.now ≤ 64 }
    requires within { AreFaultsWithin (length setup.now.image.now.circuit.net.names) faults.now }
    ensures { IfOk result (λ player. StartsSo setup.now faults.now player) }
{
    let mut board = Board::make(alloc, setup.image, setup.code.signals())?;
    board.dies.load(faults);
    Ok(WordPlayer {
        number: 0,
        board,
        schedules: Schedules::new(alloc, HELD_SCHEDULES)?,
        alive: first_lanes(faults.len()),
        firsts: none_found(alloc, faults.len())?,
    })
}

/// Runs the cycles of an executive, up to the one behind which each die has a fail, and answers whether there is one.
fn run_exec(setup: &Setup, player: &mut WordPlayer, exec: u16) -> Result<bool, NoMemory>
    requires set_up { IsSetUp setup.now }
    requires exec { exec < length (code_in setup.now).execs }
    requires before { IsBefore setup.now exec player.old }
    ensures { IfOk result (λ all. RunsExec setup.now exec player.old player.new all) }
{
    let _conditions = setup.code.signals();
    let mut walk = walk(setup.code, exec);
    match play_cycles(setup, &mut walk, player, exec, setup.code.cycles(exec)) {
        Ok(_) => Ok(player.alive == 0),
        Err(_) => Err(NoMemory),
    }
}

/// Runs the executives, up to the cycle behind which each die has a fail.
fn run_all(setup: &Setup, player: &mut WordPlayer) -> Result<(), NoMemory>
    requires set_up { IsSetUp setup.now }
    requires before { IsBefore setup.now 0 player.old }
    ensures { OnOk result (RunsAll setup.now player.old player.new) }
{
    for exec in 0..setup.code.execs() {
        if run_exec(setup, player, exec)? {
            return Ok(());
        }
    }
    Ok(())
}

/// For each of these faults the first failing cycle of a try of the setup's die in which it alone is active; none where no
/// fail comes.
pub fn first_cycles(
    alloc: Global,
    setup: &Setup,
    faults: &[StuckAt],
) -> Result<Vec<Option<u64>>, NoMemory>
    requires set_up { IsSetUp setup.now }
    requires few { length faults.now ≤ 64 }
    requires within { AreFaultsWithin (length setup.now.image.now.circuit.net.names) faults.now }
    ensures { IfOk result (λ firsts. firsts.items ≡ map (λ fault. first_on (code_in setup.now) setup.now.skews.now
        (with_fault setup.now.image.now fault)) faults.now) }
{
    let mut player = start(alloc, setup, faults)?;
    run_all(setup, &mut player)?;
    Ok(player.firsts)
}
