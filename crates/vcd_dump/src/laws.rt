//! What a told tape has of a first try.

ghost use Rattle.std.specs.Prelude.{◌≡◌, ℕ};
ghost use Rattle.tester_types.specs.Outside.{HasRisen};
ghost use Rattle.tester_types.specs.declared.record.Trial.{Trial};
ghost use Rattle.tester_types.specs.declared.record.Record.{Record};
ghost use Rattle.die_sim.specs.Socket.{Told};
ghost use Rattle.lot_plan.specs.Bound.{Bound};
ghost use Rattle.site_meaning.specs.Part.{part_of};
ghost use Rattle.site_meaning.specs.Trials.{trial, uncut};
ghost use Rattle.site_run.specs.Taped.{calls_of_trial};
ghost use Rattle.site_run.specs.Touchdown.{IsTouchdown};
ghost use Rattle.vcd_dump.specs.Taken.{tape_of, GrowsBy};

/// A first try of a site's first die without a live stop or a lost contact puts its tape on a tape that is told; and in the
/// touchdown of that die, at a socket without a fault, a tape grows by it and by what later tries drive.
pub fn first_tries_are_taped()
    ensures try_of { (plan : Bound) (site : ℕ) (recorded : Trial) → recorded ≡ trial (part_of plan site) 0 1 uncut
        → calls_of_trial (part_of plan site) 0 recorded ≡ tape_of plan site }
    ensures touchdown { (plan : Bound) (site : ℕ) (told told' : Told) (entry : Record)
        → IsTouchdown (part_of plan site) 0 told told' entry → (HasRisen told.count told'.count → ⊥)
        → GrowsBy plan site told.tape told'.tape }
{}
