//! An executive up to its first fail.

ghost use Rattle.std.specs.Prelude.{◌≡◌, ℕ, ◌+◌, ◌<◌, None, length, IfOk, OnOk};
ghost use Rattle.packed_code.specs.Cycles.{cycles_of};
ghost use Rattle.die_sim.specs.Socket.{holding};
ghost use Rattle.cycle_run.specs.Step.{HoldsSchedules};
ghost use Rattle.cycle_run.specs.declared.setup.Until.TheVariants as until;
ghost use Rattle.cycle_run.specs.Setup.{IsSetUp, code_in, stand_in};
ghost use Rattle.cycle_run.specs.Seat.{between_of, IsBefore};
ghost use Rattle.fault_grade.specs.Search.{RunsUpTo, GoesOn};

use cycle_run::{Setup, Standing, Stop, play_at};
use die_sim::SimSocket;
use edge_gen::Schedules;
use packed_code::walk;
use tester_types::NoMemory;

/// Runs the cycles of an executive up to the first one with a fail, and answers whether there is one.
pub(crate) fn run_exec(
    setup: &Setup,
    exec: u16,
    at: &mut Standing,
    schedules: &mut Schedules,
    socket: &mut SimSocket,
) -> Result<bool, NoMemory>
    requires set_up { IsSetUp setup.now }
    requires until { setup.now.until ≡ until.FirstFail }
    requires exec { exec < length (code_in setup.now).execs }
    requires before { IsBefore setup.now 1 exec schedules.old (holding socket.old None 0) at.old }
    ensures runs { IfOk result (λ found. RunsUpTo (stand_in setup.now) exec (cycles_of (code_in setup.now) exec)
        (between_of (holding socket.old None 0) at.old) (between_of (holding socket.new None 0) at.new) found) }
    ensures goes_on { IfOk result (GoesOn setup.now exec schedules.new (holding socket.new None 0) at.new) }
    ensures held { HoldsSchedules (code_in setup.now) setup.now.skews.now schedules.new }
    ensures loaded { (holding socket.new None 0).loaded ≡ (holding socket.old None 0).loaded }
{
    let _conditions = setup.code.signals();
    let mut walk = walk(setup.code, exec);
    match play_at(
        setup,
        &mut walk,
        at,
        schedules,
        socket,
        exec,
        setup.code.cycles(exec),
    ) {
        Ok(_) => Ok(at.bench.checker.total() > 0),
        Err(Stop::Contact(_)) => unreachable!(),
        Err(Stop::NoMemory) => Err(NoMemory),
    }
}
