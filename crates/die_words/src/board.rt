//! The words of all nets of 64 dies, and what a moment does to them.
ghost use Rattle.std.specs.Prelude.{◌≡◌, ℕ, ◌<◌, ◌≤◌, ◌∷◌, [], false, Option, length, not, replicate, slice_index_or, unwrap_or};
ghost use Rattle.std.specs.Int.{bit_at};
ghost use Rattle.tester_types.specs.declared.level.Level.{Level};
ghost use Rattle.tester_types.specs.declared.level.Level.TheVariants.{X};
ghost use Rattle.die_sim.specs.Die.{Device, State, IsOfNet, fixed_of};
ghost use Rattle.die_sim.specs.Moment.{clock_after};
ghost use Rattle.die_sim.specs.Stepped.{first_state, stepped};
ghost use Rattle.die_sim.specs.Walk.{AreFaultsWithin, is_off};
ghost use Rattle.die_sim.specs.declared.image.StuckAt.{StuckAt};
ghost use Rattle.strobe_check.specs.Look.{is_met};
ghost use Rattle.die_words.specs.Lane.{bit, nothing, Shows, ShowsFault};
ghost use Rattle.die_words.specs.Lanes.{IsLaneOf};
ghost use Rattle.die_words.specs.Board.{image_at, lanes_at, IsBoard, FitNets};

use crate::clocking::clock_nets;
use crate::drives::put_all;
use crate::faults::put_faults;
use crate::nets::NetWords;
use crate::settling::{put_own, walk, walk_all};
use crate::wiring::Wired;
use crate::word::{Word, failing, off_lanes};
use bench_net::Netlist;
use die_sim::{Binding, StuckAt};
use tester_types::{Drive, Level, Look};

/// All nets are unknown, and no input is driven off.
fn forget(held: &mut Vec<Word>, offs: &mut Vec<bool>)
    ensures held { held.new.items ≡ replicate (length held.old.items) nothing }
    ensures offs { offs.new.items ≡ replicate (length offs.old.items) false }
{
    held.as_mut_slice().fill(Word { zeros: 0, ones: 0 });
    offs.as_mut_slice().fill(false);
}

/// The dies as they are loaded, with these faults, one a lane.
pub(crate) fn load_nets(
    net: &Netlist,
    bind: &Binding,
    wired: &Wired,
    faults: &[StuckAt],
    nets: &mut NetWords,
)
    requires board { IsBoard net.now bind.now wired.now }
    requires fit { FitNets net.now nets.old }
    requires few { length faults.now ≤ 64 }
    requires within { AreFaultsWithin (length net.now.net.names) faults.now }
    ensures fit { FitNets net.now nets.new }
    ensures lanes { (k : ℕ) (d : StuckAt) (device : Device) → k < length faults.now
        → IsOfNet device (image_at net.now bind.now)
        → device.fixed ≡ fixed_of (length net.now.net.names) (slice_index_or faults.now k d ∷ [])
        → IsLaneOf (lanes_at net.now bind.now X nets.new) k device (first_state device) }
{
    put_faults(&mut nets.forces, faults);
    forget(&mut nets.held, &mut nets.offs);
    put_own(
        nets.forces.as_slice(),
        nets.held.as_slice(),
        &mut nets.words,
    );
    walk_all(
        net,
        wired,
        nets.forces.as_slice(),
        &mut nets.words,
        &mut nets.pending,
    );
}

/// One moment: the flip-flops capture where the clock rises, the inputs take their levels, and all settles.
pub(crate) fn step_nets(
    net: &Netlist,
    bind: &Binding,
    wired: &Wired,
    was: Level,
    now: Level,
    drives: &[(u16, Drive)],
    nets: &mut NetWords,
)
    requires board { IsBoard net.now bind.now wired.now }
    requires fit { FitNets net.now nets.old }
    requires clock { now ≡ clock_after bind.now.clock was drives.now }
    ensures fit { FitNets net.now nets.new }
    ensures lanes { (k : ℕ) (device : Device) (state : State) → k < 64
        → IsLaneOf (lanes_at net.now bind.now was nets.old) k device state
        → IsLaneOf (lanes_at net.now bind.now now nets.new) k device (stepped device state drives.now) }
{
    clock_nets(net, wired, was, now, nets);
    put_all(net, &wired.readers, bind, drives, nets);
    walk(
        net,
        wired,
        nets.forces.as_slice(),
        &mut nets.words,
        &mut nets.pending,
    );
}

/// The dies that don't meet a look at a net.
pub(crate) fn failing_net(nets: &NetWords, n: u32, look: Look) -> u64
    requires forces { n < length nets.now.forces.items }
    requires offs { n < length nets.now.offs.items }
    requires words { n < length nets.now.words.items }
    ensures { (k : ℕ) (x own : Level) (f : Option Level) → k < 64
        → Shows (slice_index_or nets.now.words.items n nothing) k x
        → ShowsFault (slice_index_or nets.now.forces.items n nothing) k f
        → is_off own ≡ slice_index_or nets.now.offs.items n false → is_off x ≡ is_off (unwrap_or f own)
        → bit_at result k ≡ bit (not (is_met look x)) }
{
    failing_at(
        nets.forces[n as usize],
        nets.offs[n as usize],
        nets.words[n as usize],
        look,
    )
}

/// The dies that don't meet a look at a net with these words.
fn failing_at(force: Word, off: bool, word: Word, look: Look) -> u64
    ensures { (k : ℕ) (x own : Level) (f : Option Level) → k < 64 → Shows word k x → ShowsFault force k f
        → is_off own ≡ off → is_off x ≡ is_off (unwrap_or f own) → bit_at result k ≡ bit (not (is_met look x)) }
{
    let off = off_lanes(force, off);
    failing(look, word, off)
}
