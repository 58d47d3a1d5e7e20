//! A try up to its first fail.

ghost use Rattle.std.specs.Prelude.{◌≡◌, ℕ, None, IfOk, OnOk};
ghost use Rattle.die_sim.specs.Socket.{IsLoaded, holding};
ghost use Rattle.cycle_run.specs.Step.{HoldsSchedules};
ghost use Rattle.cycle_run.specs.declared.setup.Until.TheVariants as until;
ghost use Rattle.cycle_run.specs.Setup.{IsSetUp, code_in, device_in};
ghost use Rattle.cycle_run.specs.Seat.{point_of, StartsSo};
ghost use Rattle.word_run.specs.First.{first_fail};
ghost use Rattle.fault_grade.specs.Search.{first_in, HasFirst};

use crate::exec::run_exec;
use cycle_run::{Setup, Standing, first_standing};
use die_sim::SimSocket;
use edge_gen::Schedules;
use std::alloc::Global;
use tester_types::{Fail, NoMemory};

/// Runs the executives up to the first fail.
fn run_all(
    setup: &Setup,
    at: &mut Standing,
    schedules: &mut Schedules,
    socket: &mut SimSocket,
) -> Result<(), NoMemory>
    requires set_up { IsSetUp setup.now }
    requires until { setup.now.until ≡ until.FirstFail }
    requires starts { StartsSo setup.now 1 schedules.old (holding socket.old None 0) at.old }
    ensures first { OnOk result (HasFirst (device_in setup.now) (first_in setup.now)
        (point_of (holding socket.new None 0) at.new)) }
    ensures held { HoldsSchedules (code_in setup.now) setup.now.skews.now schedules.new }
    ensures loaded { (holding socket.new None 0).loaded ≡ (holding socket.old None 0).loaded }
{
    for exec in 0..setup.code.execs() {
        if run_exec(setup, exec, at, schedules, socket)? {
            return Ok(());
        }
    }
    Ok(())
}

/// The cycle of the first fail, if there is one.
fn first_cycle(fails: &[Fail]) -> Option<u64>
    ensures { result ≡ first_fail fails.now }
{
    match fails {
        [] => None,
        [fail, ..] => Some(fail.cycle),
    }
}

/// The cycle of the first fail of a try of the die that is loaded, whose faults are active. But for what goes along with a
/// try, it takes no memory where moments are lent.
pub(crate) fn first_cycle_of(
    alloc: Global,
    setup: &Setup,
    schedules: &mut Schedules,
    socket: &mut SimSocket,
) -> Result<Option<u64>, NoMemory>
    requires set_up { IsSetUp setup.now }
    requires until { setup.now.until ≡ until.FirstFail }
    requires held { HoldsSchedules (code_in setup.now) setup.now.skews.now schedules.old }
    requires loaded { IsLoaded setup.now.image.now (holding socket.old None 0) }
    ensures first { IfOk result (λ first. first ≡ first_in setup.now) }
    ensures held { HoldsSchedules (code_in setup.now) setup.now.skews.now schedules.new }
    ensures loaded { (holding socket.new None 0).loaded ≡ (holding socket.old None 0).loaded }
{
    let mut at = first_standing(alloc, setup, 1)?;
    run_all(setup, &mut at, schedules, socket)?;
    let kept = at.bench.checker.kept();
    Ok(first_cycle(kept.as_slice()))
}
