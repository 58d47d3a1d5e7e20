//! A batch of cycles of a try, which its cursor gives.

ghost use Rattle.std.specs.Prelude.{◌+◌, ◌≤◌, length, OnOk, IfErr};
ghost use Rattle.packed_code.specs.Cycles.{cycles_of};
ghost use Rattle.site_run.specs.Station.{code_in, device_in, IsGround, Serves, Keeps};
ghost use Rattle.site_run.specs.Seat.{IsRunOn, PlaysBatch, StopsBatch};

use crate::feed::CursorFeed;
use crate::run::Run;
use crate::station::{Ground, Station};
use cycle_run::{Setup, Stop, Until, play_at};
use die_sim::Socket;
use std::sync::Wait;

/// Plays the next batch of a try, of so many cycles of its executive.
pub(crate) fn play_batch<R: Wait, K: Socket>(
    ground: &Ground,
    station: &mut Station<R, K>,
    run: &mut Run,
    cycles: u64,
) -> Result<(), Stop>
    requires set_up { IsGround ground.now }
    requires serves { Serves ground.now station.old }
    requires runs { IsRunOn (code_in ground.now) (device_in ground.now) (K.told station.old.socket.now) run.old }
    requires some { 1 ≤ cycles }
    requires within { run.old.done + cycles ≤ length (cycles_of (code_in ground.now) run.old.exec) }
    ensures plays { OnOk result (PlaysBatch ground.now cycles (K.told station.old.socket.now)
        (K.told station.new.socket.now) run.old run.new) }
    ensures stops { IfErr result (λ why. StopsBatch ground.now cycles (K.told station.old.socket.now)
        (K.told station.new.socket.now) run.old run.new why) }
    ensures serves { Serves ground.now station.new }
    ensures keeps { Keeps K.told station.old station.new }
{
    let setup = Setup {
        code: ground.mem.code(),
        image: ground.image,
        skews: ground.skews,
        until: Until::End,
        lent: None,
    };
    let mut feed = CursorFeed {
        rt: station.rt,
        mem: ground.mem,
        pass: station.pass,
        cursor: &mut run.cursor,
    };
    match play_at(
        &setup,
        &mut feed,
        &mut run.at,
        station.schedules,
        station.socket,
        run.exec,
        cycles,
    ) {
        Ok(_) => {}
        Err(stop) => return Err(stop),
    }
    run.done += cycles;
    run.batch += 1;
    Ok(())
}
