//! One cycle at a socket.

ghost use Rattle.std.specs.Prelude.{◌≡◌, ◌≤◌, ◌<◌, ◌^◌, map, length, All, OnOk, IfErr, IfSome};
ghost use Rattle.text_bytes.specs.Limits.{most_signals};
ghost use Rattle.packed_code.specs.Conditions.{IsProgram};
ghost use Rattle.packed_code.specs.Walk.{IsOf};
ghost use Rattle.bench_net.specs.Circuit.{IsWhole};
ghost use Rattle.edge_gen.specs.Moments.{later};
ghost use Rattle.die_sim.specs.Die.{device_of};
ghost use Rattle.cycle_run.specs.Cycle.{point_at, going_at, stand_of, IsBetween, PlaysCycle};
ghost use Rattle.cycle_run.specs.Step.{IsScheduled, FitCode, FitsBench, whose_at, HoldsSchedules, schedule_of, Closes, Stops, StopsCycle, HasCause};
ghost use Rattle.cycle_run.specs.Setup.{IsSetUp, code_in, device_in, stand_in};

use crate::bench::Bench;
use crate::moments::make_moments;
use crate::place::Place;
use crate::setup::Setup;
use crate::stop::Stop;
use die_sim::{DieImage, Socket};
use edge_gen::Schedules;
use packed_code::Code;
use tester_types::{Moment, MomentList};

/// Makes the moments of a schedule in the cycle of this place, and closes the cycle.
pub fn make_all<K: Socket>(
    socket: &mut K,
    bench: &mut Bench,
    image: &DieImage,
    place: Place,
    moments: &[Moment],
) -> Result<(), Stop>
    requires whole { IsWhole image.now.circuit }
    requires few { length image.now.binds ≤ most_signals }
    requires early { place.start < 2 ^ 127 }
    requires moments { All (IsScheduled (length image.now.binds)) moments.now }
    requires room { FitsBench (length image.now.binds) bench.old.last.items bench.old.levels.items }
    requires between { IsBetween (device_of image.now)
        (point_at bench.old.checker bench.old.last.items (K.told socket.old)) }
    ensures closes { OnOk result (Closes (device_of image.now) (whose_at place) (map (later place.start) moments.now)
        (point_at bench.old.checker bench.old.last.items (K.told socket.old))
        (point_at bench.new.checker bench.new.last.items (K.told socket.new))) }
    ensures between { OnOk result (IsBetween (device_of image.now)
        (point_at bench.new.checker bench.new.last.items (K.told socket.new))) }
    ensures stops { IfErr result (λ stop. Stops (device_of image.now) (whose_at place)
        (map (later place.start) moments.now)
        (point_at bench.old.checker bench.old.last.items (K.told socket.old))
        (point_at bench.new.checker bench.new.last.items (K.told socket.new)) stop) }
    ensures room { FitsBench (length image.now.binds) bench.new.last.items bench.new.levels.items }
    ensures loaded { (K.told socket.new).loaded ≡ (K.told socket.old).loaded }
    ensures count { (K.told socket.old).count ≤ (K.told socket.new).count }
    ensures cause { IfErr result (λ stop. HasCause (K.told socket.old).count (K.told socket.new).count stop) }
{
    match make_moments(socket, bench, image, place, moments) {
        Ok(()) => {
            bench.checker.close_cycle();
            Ok(())
        }
        Err(stop) => Err(stop),
    }
}

/// Makes the cycle of this place: drives the die, senses it and judges its looks, moment by moment. Its moments are lent by
/// the schedules that are held, and it takes no memory where they are and the bench has had room for as much.
pub fn make_cycle<K: Socket>(
    socket: &mut K,
    bench: &mut Bench,
    schedules: &mut Schedules,
    code: &Code,
    image: &DieImage,
    skews: &[i64],
    place: Place,
) -> Result<(), Stop>
    requires program { IsProgram code.now }
    requires skews { FitCode code.now skews.now }
    requires signals { length image.now.binds ≡ length code.now.signals }
    requires whole { IsWhole image.now.circuit }
    requires of { IsOf code.now place.cycle.table place.cycle.row }
    requires early { place.start < 2 ^ 127 }
    requires held { HoldsSchedules code.now skews.now schedules.old }
    requires room { FitsBench (length image.now.binds) bench.old.last.items bench.old.levels.items }
    requires between { IsBetween (device_of image.now)
        (point_at bench.old.checker bench.old.last.items (K.told socket.old)) }
    ensures plays { OnOk result (PlaysCycle (stand_of code.now skews.now (device_of image.now)) place.exec
        (going_at (point_at bench.old.checker bench.old.last.items (K.told socket.old)) place.start place.number)
        place.cycle
        (point_at bench.old.checker bench.old.last.items (K.told socket.old))
        (point_at bench.new.checker bench.new.last.items (K.told socket.new))) }
    ensures between { OnOk result (IsBetween (device_of image.now)
        (point_at bench.new.checker bench.new.last.items (K.told socket.new))) }
    ensures stops { IfErr result (λ stop. StopsCycle (stand_of code.now skews.now (device_of image.now)) place.exec
        (going_at (point_at bench.old.checker bench.old.last.items (K.told socket.old)) place.start place.number)
        place.cycle
        (point_at bench.old.checker bench.old.last.items (K.told socket.old))
        (point_at bench.new.checker bench.new.last.items (K.told socket.new)) stop) }
    ensures held { HoldsSchedules code.now skews.now schedules.new }
    ensures room { FitsBench (length image.now.binds) bench.new.last.items bench.new.levels.items }
    ensures loaded { (K.told socket.new).loaded ≡ (K.told socket.old).loaded }
    ensures count { (K.told socket.old).count ≤ (K.told socket.new).count }
    ensures cause { IfErr result (λ stop. HasCause (K.told socket.old).count (K.told socket.new).count stop) }
{
    let table = code.table(place.cycle.table);
    let row = code.row(place.cycle.row);
    match schedules.of(place.cycle.table, place.cycle.row, table, row, skews) {
        Ok(moments) => make_all(socket, bench, image, place, moments.as_slice()),
        Err(_) => Err(Stop::NoMemory),
    }
}

/// The moments of the cycle of this place, where they are lent.
fn lent_moments<'a>(setup: &Setup<'a>, place: Place) -> Option<&'a MomentList>
    requires { IsSetUp setup.now }
    ensures { IfSome result (λ moments. moments.now
        ≡ schedule_of (code_in setup.now) setup.now.skews.now (place.cycle.table, place.cycle.row)) }
{
    match setup.lent {
        None => None,
        Some(lent) => lent.get(place.cycle.table, place.cycle.row),
    }
}

/// Makes the cycle of this place, with moments that are lent where they are there.
pub(crate) fn make_lent<K: Socket>(
    setup: &Setup,
    bench: &mut Bench,
    schedules: &mut Schedules,
    socket: &mut K,
    place: Place,
) -> Result<(), Stop>
    requires set_up { IsSetUp setup.now }
    requires of { IsOf (code_in setup.now) place.cycle.table place.cycle.row }
    requires early { place.start < 2 ^ 127 }
    requires held { HoldsSchedules (code_in setup.now) setup.now.skews.now schedules.old }
    requires room { FitsBench (length setup.now.image.now.binds) bench.old.last.items bench.old.levels.items }
    requires between { IsBetween (device_in setup.now)
        (point_at bench.old.checker bench.old.last.items (K.told socket.old)) }
    ensures plays { OnOk result (PlaysCycle (stand_in setup.now) place.exec
        (going_at (point_at bench.old.checker bench.old.last.items (K.told socket.old)) place.start place.number)
        place.cycle
        (point_at bench.old.checker bench.old.last.items (K.told socket.old))
        (point_at bench.new.checker bench.new.last.items (K.told socket.new))) }
    ensures between { OnOk result (IsBetween (device_in setup.now)
        (point_at bench.new.checker bench.new.last.items (K.told socket.new))) }
    ensures stops { IfErr result (λ stop. StopsCycle (stand_in setup.now) place.exec
        (going_at (point_at bench.old.checker bench.old.last.items (K.told socket.old)) place.start place.number)
        place.cycle
        (point_at bench.old.checker bench.old.last.items (K.told socket.old))
        (point_at bench.new.checker bench.new.last.items (K.told socket.new)) stop) }
    ensures held { HoldsSchedules (code_in setup.now) setup.now.skews.now schedules.new }
    ensures room { FitsBench (length setup.now.image.now.binds) bench.new.last.items bench.new.levels.items }
    ensures loaded { (K.told socket.new).loaded ≡ (K.told socket.old).loaded }
    ensures count { (K.told socket.old).count ≤ (K.told socket.new).count }
    ensures cause { IfErr result (λ stop. HasCause (K.told socket.old).count (K.told socket.new).count stop) }
{
    let code = setup.code;
    let _table = code.table(place.cycle.table);
    let _row = code.row(place.cycle.row);
    let _signals = code.signals();
    match lent_moments(setup, place) {
        Some(moments) => make_all(socket, bench, setup.image, place, moments.as_slice()),
        None => make_cycle(
            socket,
            bench,
            schedules,
            code,
            setup.image,
            setup.skews,
            place,
        ),
    }
}
