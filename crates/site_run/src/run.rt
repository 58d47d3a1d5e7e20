//! A try in a poll: up to the end of one batch.

ghost use Rattle.std.specs.Prelude.{◌≡◌, ◌+◌, ◌≤◌, ◌<◌, ℕ, None, length, IfOk, IfSome};
ghost use Rattle.tester_types.specs.Outside.{HasRisen};
ghost use Rattle.packed_code.specs.Cycles.{cycles_of};
ghost use Rattle.die_sim.specs.Die.{Device};
ghost use Rattle.die_sim.specs.Socket.{Told};
ghost use Rattle.site_meaning.specs.Part.{Part};
ghost use Rattle.site_meaning.specs.Polls.{next_exec, onward, settled, run_batch};
ghost use Rattle.site_run.specs.Taped.{IsTaped, calls_of_batch};
ghost use Rattle.site_run.specs.Station.{code_in, device_in, stand_in, IsGround, Serves, Keeps};
ghost use Rattle.site_run.specs.Seat.{running_of, IsRunOn, IsBefore, IsSeen, IsPlanned, IsMove, contact_of, GoesOnSo, KeepsTime, HasMoved};

use crate::batch::play_batch;
use crate::station::{Ground, Station};
use cycle_run::{Standing, Stop};
use die_sim::Socket;
use packed_code::Code;
use pattern_mem::{Cursor, at};
use std::sync::Wait;
use tester_types::{NoMemory, Verdict};

/// A try that runs.
#[derive(Drop)]
pub(crate) struct Run {
    /// The number of the executive that runs.
    pub exec: u16,
    /// Its cycles that are to come.
    pub cursor: Cursor,
    /// How many of its cycles have run.
    pub done: u64,
    /// The number of the try's next batch, from 0.
    pub batch: u64,
    pub at: Standing,
}

/// What comes of a try.
#[derive(Clone, Copy)]
pub(crate) enum Move {
    /// It goes on with the same executive.
    More,
    /// It goes on with another executive.
    Next,
    Ends(Verdict),
}

/// The first executive that has a cycle, from this one on.
fn next_exec(code: &Code, from: u16) -> Option<u16>
    ensures first { result ≡ next_exec code.now from }
    ensures within { IfSome result (λ exec. (from ≤ exec) × (exec < length code.now.execs)
        × (0 < length (cycles_of code.now exec))) }
{
    for exec in from..code.execs() {
        if code.cycles(exec) > 0 {
            return Some(exec);
        }
    }
    None
}

/// Goes on with the first executive that has a cycle, from this one on.
pub(crate) fn onward(ground: &Ground, run: &mut Run, from: u16) -> Result<Move, NoMemory>
    ensures polled { IfOk result (λ move. (part : Part) (number : ℕ) (told : Told) → part.code ≡ code_in ground.now
        → IsMove number told run.new move (onward part number (running_of told run.old) from)) }
    ensures fits { IfOk result (λ move. (device : Device) (told : Told) → IsBefore device told run.old from
        → GoesOnSo (code_in ground.now) device told run.new move) }
    ensures quiet { IfOk result (λ move. contact_of move ≡ None) }
    ensures kept { IfOk result (λ move. KeepsTime run.old run.new move) }
    ensures number { run.new.at.number ≡ run.old.at.number }
    ensures checker { run.new.at.bench.checker ≡ run.old.at.bench.checker }
{
    let Some(exec) = next_exec(ground.mem.code(), from) else {
        return Ok(Move::Ends(Verdict::Pass));
    };
    run.cursor = at(ground.alloc, ground.mem, exec)?;
    run.exec = exec;
    run.done = 0;
    Ok(Move::Next)
}

/// What comes of a try behind a batch: where its executive has ended, a fail ends the try, else the next one follows.
fn settle(ground: &Ground, run: &mut Run) -> Result<Move, NoMemory>
    requires set_up { IsGround ground.now }
    requires exec { run.old.exec < length (code_in ground.now).execs }
    requires seen { IsSeen run.old.at.bench.checker }
    ensures polled { IfOk result (λ move. (part : Part) (number : ℕ) (told : Told) → part.code ≡ code_in ground.now
        → IsMove number told run.new move (settled part number (running_of told run.old))) }
    ensures fits { IfOk result (λ move. (device : Device) (told : Told)
        → IsRunOn (code_in ground.now) device told run.old
        → GoesOnSo (code_in ground.now) device told run.new move) }
    ensures quiet { IfOk result (λ move. contact_of move ≡ None) }
    ensures kept { IfOk result (λ move. KeepsTime run.old run.new move) }
    ensures checker { run.new.at.bench.checker ≡ run.old.at.bench.checker }
{
    if run.done < ground.mem.code().cycles(run.exec) {
        return Ok(Move::More);
    }
    if run.at.bench.checker.total() > 0 {
        return Ok(Move::Ends(Verdict::Fail(run.exec)));
    }
    onward(ground, run, run.exec + 1)
}

/// Runs the next batch, of at most so many cycles.
pub(crate) fn run_batch<R: Wait, K: Socket>(
    ground: &Ground,
    station: &mut Station<R, K>,
    run: &mut Run,
    most: u32,
) -> Result<Move, NoMemory>
    requires set_up { IsGround ground.now }
    requires serves { Serves ground.now station.old }
    requires runs { IsRunOn (code_in ground.now) (device_in ground.now) (K.told station.old.socket.now) run.old }
    requires more { run.old.done < length (cycles_of (code_in ground.now) run.old.exec) }
    requires some { 1 ≤ most }
    ensures polled { IfOk result (λ move. (part : Part) (die number : ℕ)
        → IsPlanned part die number (stand_in ground.now) most run.old.at.bench.checker.count.keep
        → IsMove number (K.told station.new.socket.now) run.new move
        (run_batch part die number (contact_of move) (running_of (K.told station.old.socket.now) run.old))) }
    ensures moved { IfOk result (λ move. HasMoved (code_in ground.now) (device_in ground.now)
        (K.told station.new.socket.now) run.old run.new move) }
    ensures tape { IfOk result (λ move. (part : Part) (die number : ℕ)
        → IsPlanned part die number (stand_in ground.now) most run.old.at.bench.checker.count.keep
        → IsTaped (contact_of move)
        (calls_of_batch part die number (running_of (K.told station.old.socket.now) run.old))
        (K.told station.old.socket.now).tape (K.told station.new.socket.now).tape) }
    ensures cause { IfOk result (λ move. IfSome (contact_of move)
        (λ _. HasRisen (K.told station.old.socket.now).count (K.told station.new.socket.now).count)) }
    ensures serves { Serves ground.now station.new }
    ensures keeps { Keeps K.told station.old station.new }
{
    let left = ground.mem.code().cycles(run.exec) - run.done;
    let cycles = left.min(u64::from(most));
    match play_batch(ground, station, run, cycles) {
        Ok(()) => settle(ground, run),
        Err(Stop::Contact(instant)) => Ok(Move::Ends(Verdict::Contact(instant))),
        Err(Stop::NoMemory) => Err(NoMemory),
    }
}
