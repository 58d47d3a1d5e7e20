//! The moments of a cycle, one after another.

ghost use Rattle.std.specs.Prelude.{◌≡◌, ◌≤◌, ◌<◌, ◌^◌, [], ◌∷◌, map, length, All};
ghost use Rattle.text_bytes.specs.Limits.{most_signals};
ghost use Rattle.bench_net.specs.Circuit.{IsWhole};
ghost use Rattle.edge_gen.specs.Moments.{later};
ghost use Rattle.die_sim.specs.Die.{device_of};
ghost use Rattle.cycle_run.specs.Cycle.{point_at};
ghost use Rattle.cycle_run.specs.Step.{IsScheduled, FitsBench, IsReady, whose_at, MakesMoments};

use crate::bench::Bench;
use crate::drives::{collect, remember};
use crate::place::Place;
use crate::sensing::{drive_die, sense_wanted};
use crate::stop::Stop;
use die_sim::{Contact, DieImage, Socket};
use tester_types::Moment;

/// Makes a moment of a schedule in the cycle of this place: drives the die, senses what the checker wants, and judges the
/// looks.
fn make_moment<K: Socket>(
    socket: &mut K,
    bench: &mut Bench,
    image: &DieImage,
    place: Place,
    moment: &Moment,
) -> Result<(), Stop>
    requires whole { IsWhole image.now.circuit }
    requires few { length image.now.binds ≤ most_signals }
    requires early { place.start < 2 ^ 127 }
    requires moment { IsScheduled (length image.now.binds) moment.now }
    requires room { FitsBench (length image.now.binds) bench.old.last.items bench.old.levels.items }
    requires ready { IsReady (device_of image.now)
        (point_at bench.old.checker bench.old.last.items (K.told socket.old)) }
    ensures makes { MakesMoments (device_of image.now) (whose_at place) (later place.start moment.now ∷ [])
        (point_at bench.old.checker bench.old.last.items (K.told socket.old))
        (point_at bench.new.checker bench.new.last.items (K.told socket.new)) result }
    ensures room { FitsBench (length image.now.binds) bench.new.last.items bench.new.levels.items }
    ensures loaded { (K.told socket.new).loaded ≡ (K.told socket.old).loaded }
    ensures count { (K.told socket.old).count ≤ (K.told socket.new).count }
{
    let at = place.start + moment.at;
    let looks = moment.looks.as_slice();
    collect(
        image,
        bench.last.as_slice(),
        moment.drives.as_slice(),
        &mut bench.drives,
    )?;
    match drive_die(socket, at, bench.drives.as_slice()) {
        Ok(()) => {}
        Err(Contact) => return Err(Stop::Contact(at)),
    }
    match sense_wanted(socket, &bench.checker, looks, &mut bench.levels) {
        Ok(()) => {}
        Err(Contact) => return Err(Stop::Contact(at)),
    }
    bench.checker.look_at(
        place.exec,
        place.number,
        place.cycle.mark,
        at,
        looks,
        bench.levels.as_slice(),
    );
    remember(&mut bench.last, moment.drives.as_slice());
    Ok(())
}

/// Makes moments of a schedule in the cycle of this place, one after another.
pub(crate) fn make_moments<K: Socket>(
    socket: &mut K,
    bench: &mut Bench,
    image: &DieImage,
    place: Place,
    moments: &[Moment],
) -> Result<(), Stop>
    requires whole { IsWhole image.now.circuit }
    requires few { length image.now.binds ≤ most_signals }
    requires early { place.start < 2 ^ 127 }
    requires moments { All (IsScheduled (length image.now.binds)) moments.now }
    requires room { FitsBench (length image.now.binds) bench.old.last.items bench.old.levels.items }
    requires ready { IsReady (device_of image.now)
        (point_at bench.old.checker bench.old.last.items (K.told socket.old)) }
    ensures makes { MakesMoments (device_of image.now) (whose_at place) (map (later place.start) moments.now)
        (point_at bench.old.checker bench.old.last.items (K.told socket.old))
        (point_at bench.new.checker bench.new.last.items (K.told socket.new)) result }
    ensures room { FitsBench (length image.now.binds) bench.new.last.items bench.new.levels.items }
    ensures loaded { (K.told socket.new).loaded ≡ (K.told socket.old).loaded }
    ensures count { (K.told socket.old).count ≤ (K.told socket.new).count }
{
    for moment in moments {
        make_moment(socket, bench, image, place, moment)?;
    }
    Ok(())
}
