//! A try before its first executive.

ghost use Rattle.std.specs.Prelude.{None, IfOk};
ghost use Rattle.edge_gen.specs.Held.{Held};
ghost use Rattle.die_sim.specs.Socket.{Told, IsLoaded, holding};
ghost use Rattle.cycle_run.specs.Step.{HoldsSchedules};
ghost use Rattle.cycle_run.specs.Setup.{IsSetUp, code_in};
ghost use Rattle.cycle_run.specs.Seat.{StartsSo};

use crate::bench::Bench;
use crate::seat::Standing;
use crate::setup::Setup;
use die_sim::{DieImage, SimSocket, Socket, SocketFault};
use std::alloc::Global;
use tester_types::NoMemory;

/// A socket in which this die is loaded. It is simulated, so it never loses contact.
pub fn loaded(alloc: Global, image: &DieImage) -> Result<SimSocket, NoMemory>
    ensures { IfOk result (λ socket. IsLoaded image.now (holding socket None 0)) }
{
    let mut socket = SimSocket::new(alloc);
    match socket.load(image) {
        Ok(()) => Ok(socket),
        Err(SocketFault::NoMemory) => Err(NoMemory),
        Err(SocketFault::Contact) => unreachable!(),
    }
}

/// Where a try stands before its first executive, with a checker that keeps so many fails.
pub fn first_standing(alloc: Global, setup: &Setup, keep: u16) -> Result<Standing, NoMemory>
    requires { IsSetUp setup.now }
    ensures { IfOk result (λ at. (schedules : Held) (told : Told)
        → HoldsSchedules (code_in setup.now) setup.now.skews.now schedules → IsLoaded setup.now.image.now told
        → StartsSo setup.now keep schedules told at) }
{
    let bench = Bench::new(alloc, setup.image, setup.code.signals(), keep)?;
    Ok(Standing {
        number: 0,
        time: 0,
        bench,
    })
}
