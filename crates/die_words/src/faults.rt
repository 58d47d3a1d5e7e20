//! The faults of 64 dies, one each.
ghost use Rattle.std.specs.Prelude.{◌≡◌, ◌≢◌, ℕ, ◌<◌, ◌≤◌, ◌∷◌, [], Option, Some, None, length, replicate, slice_index_or};
ghost use Rattle.tester_types.specs.declared.level.Level.{Level};
ghost use Rattle.die_sim.specs.Die.{stuck, fixed_of};
ghost use Rattle.die_sim.specs.Walk.{AreFaultsWithin};
ghost use Rattle.die_sim.specs.declared.image.StuckAt.{StuckAt};
ghost use Rattle.die_words.specs.Lane.{nothing, ShowsFault, AreFaults};

use crate::word::{Word, put_fault};
use die_sim::StuckAt;

/// No net is fixed in any die.
fn clear(forces: &mut Vec<Word>)
    ensures { forces.new.items ≡ replicate (length forces.old.items) nothing }
{
    forces.as_mut_slice().fill(Word { zeros: 0, ones: 0 });
}

/// One fault more, in a lane.
fn put_one(forces: &mut Vec<Word>, lane: u32, fault: StuckAt)
    requires lane { lane < 64 }
    requires net { fault.net < length forces.old.items }
    ensures count { length forces.new.items ≡ length forces.old.items }
    ensures here { ShowsFault (slice_index_or forces.old.items fault.net nothing) lane None
        → ShowsFault (slice_index_or forces.new.items fault.net nothing) lane (Some (stuck fault.value)) }
    ensures lanes { (k : ℕ) (f : Option Level) → k ≢ lane
        → ShowsFault (slice_index_or forces.old.items fault.net nothing) k f
        → ShowsFault (slice_index_or forces.new.items fault.net nothing) k f }
    ensures others { (m : ℕ) → m ≢ fault.net
        → slice_index_or forces.new.items m nothing ≡ slice_index_or forces.old.items m nothing }
{
    let old = forces[fault.net as usize];
    forces[fault.net as usize] = put_fault(old, lane, fault.value);
}

/// Each of these faults is in a lane of its own, and no other one is anywhere.
pub(crate) fn put_faults(forces: &mut Vec<Word>, faults: &[StuckAt])
    requires few { length faults.now ≤ 64 }
    requires within { AreFaultsWithin (length forces.old.items) faults.now }
    ensures count { length forces.new.items ≡ length forces.old.items }
    ensures each { (k : ℕ) (d : StuckAt) → k < length faults.now → AreFaults forces.new.items k
        (fixed_of (length forces.old.items) (slice_index_or faults.now k d ∷ [])) }
{
    clear(forces);
    for (lane, fault) in faults.iter().enumerate() {
        put_one(forces, lane as u32, *fault);
    }
}
