//! Laws of tries, records and polls.

ghost use Rattle.std.specs.Prelude.{◌≡◌, ◌↔◌, ◌⊎◌, ◌+◌, ◌<◌, ℕ, false, List, [], ◌∷◌, Option, length, map, take, drop, zip};
ghost use Rattle.std.specs.List.{AllByRecursion, flat_map};
ghost use Rattle.tester_types.specs.declared.cycle.Cycle.{Cycle};
ghost use Rattle.tester_types.specs.declared.cycle.Moment.{Moment};
ghost use Rattle.tester_types.specs.declared.record.Record.{Record};
ghost use Rattle.tester_types.specs.declared.record.Trial.{Trial};
ghost use Rattle.packed_code.specs.Conditions.{IsProgram};
ghost use Rattle.edge_gen.specs.Moments.{Rises};
ghost use Rattle.bench_net.specs.Circuit.{IsWhole};
ghost use Rattle.die_sim.specs.Die.{Device, State};
ghost use Rattle.plan_rows.specs.Rows.{lot_of, dies_at};
ghost use Rattle.lot_plan.specs.Bound.{Bound, image_of, stop_of};
ghost use Rattle.lot_plan.specs.Skews.{site_skews};
ghost use Rattle.lot_plan.specs.Refusal.{IsBound};
ghost use Rattle.site_meaning.specs.Playing.{Stand, Going, Along, Whose, PlayedCycle, FitStand, entries_in};
ghost use Rattle.site_meaning.specs.Steps.{GoesThrough, states_in, judged_of};
ghost use Rattle.site_meaning.specs.Part.{rows_for, circuits_for, Part, IsPart, part_of, only, lot_in, dies_in, skews_in, order_in, image_in};
ghost use Rattle.site_meaning.specs.Trials.{played, pieces, Cut, uncut, cut_of, trial};
ghost use Rattle.site_meaning.specs.Rising.{instants_in};
ghost use Rattle.site_meaning.specs.Alike.{ArePartsAlike};
ghost use Rattle.site_meaning.specs.Records.{TryCut, IsTrue, Sound, AreInOrder, touchdown, records, cuts_of};
ghost use Rattle.site_meaning.specs.Polls.{Seat, Arises, GoesOn, Ends, rests, poll};
ghost use Rattle.site_meaning.specs.Counting.{Counts};

/// The moments of a cycle are judged in the states that its die goes through, step by step, and in no others.
pub fn played_states_are_steps()
    ensures states { (device : Device) (along : Along) (moments : List Moment) (states : List State)
        → IsWhole device.circuit → length along.die.held ≡ length device.circuit.net.drivers
        → GoesThrough device along moments states ↔ (states ≡ states_in device along moments) }
    ensures entries { (device : Device) (whose : Whose) (along : Along) (moments : List Moment)
        → entries_in device whose along moments
        ≡ map (judged_of device whose) (zip moments (states_in device along moments)) }
{}

/// Where skews keep each event inside its cycle, the moments of cycles that are played one after another rise.
pub fn moments_rise()
    ensures { (stand : Stand) (exec : ℕ) (going : Going) (cycles : List Cycle)
        → FitStand stand → Rises (instants_in (played stand exec going cycles)) }
{}

/// Batches cut the cycles of an executive: the first holds so many, the others follow, and together they are all.
pub fn batches_are_pieces()
    ensures first { (more left : ℕ) (cycles : List PlayedCycle) → 0 < length cycles
        → pieces more left cycles ≡ take (left + 1) cycles ∷ pieces more more (drop (left + 1) cycles) }
    ensures all { (more left : ℕ) (cycles : List PlayedCycle)
        → flat_map (λ (piece : List PlayedCycle). piece) (pieces more left cycles) ≡ cycles }
{}

/// A try is true under the cut that it tells, whatever cut it was made with.
pub fn trials_are_true()
    ensures { (part : Part) (die number : ℕ) (cut : Cut) → IsTrue part die (trial part die number cut) }
{}

/// A poll of a site goes on with its touchdown, or ends it; then the record that waits is sound.
pub fn polls_are_true()
    ensures { (part : Part) (contact : Option ℕ) (seat : Seat) → IsPart part → Arises part seat
        → GoesOn seat (poll part contact seat) ⊎ Ends part contact seat (poll part contact seat) }
{}

/// A poll of a site that has something to do counts 1: a touchdown takes as many polls as the verdicts of its tries tell.
pub fn polls_are_counted()
    ensures { (part : Part) (contact : Option ℕ) (seat : Seat) → IsPart part → Arises part seat
        → rests part seat ≡ false → Counts part seat (poll part contact seat) }
{}

/// A sound record is the touchdown that the plan makes with the cuts that the record tells, without any where it tells
/// none; and sound records of all dies, in their order, are the records of the site.
pub fn sound_is_touchdown()
    ensures one { (part : Part) (entry : Record) → Sound part entry
        → entry ≡ touchdown part (cuts_of (entry ∷ [])) entry.die }
    ensures none { (part : Part) (entry : Record) → Sound part entry
        → AllByRecursion (λ (t : Trial). cut_of t ≡ uncut) entry.trials → entry ≡ touchdown part [] entry.die }
    ensures all { (part : Part) (entries : List Record) → AllByRecursion (Sound part) entries → AreInOrder 0 entries
        → length entries ≡ dies_in part → entries ≡ records part (cuts_of entries) }
{}

/// A touchdown that the plan makes is sound, whatever cuts it was made with.
pub fn touchdown_is_sound()
    ensures { (part : Part) (cuts : List TryCut) (die : ℕ) → IsPart part → die < dies_in part
        → Sound part (touchdown part cuts die) }
{}

/// The part of a site says of the site what the plan says.
pub fn part_says_what_plan_says()
    ensures lot { (plan : Bound) (site : ℕ) → lot_in (part_of plan site) ≡ lot_of plan.rows }
    ensures dies { (plan : Bound) (site : ℕ) → dies_in (part_of plan site) ≡ length (dies_at site plan.rows) }
    ensures skews { (plan : Bound) (site : ℕ) → skews_in (part_of plan site) ≡ site_skews plan site }
    ensures order { (plan : Bound) (site die number : ℕ)
        → order_in (part_of plan site) die number ≡ stop_of plan.rows site die number }
    ensures image { (plan : Bound) (site die number : ℕ) → die < length (dies_at site plan.rows)
        → image_in (part_of plan site) die number ≡ image_of plan site die number }
{}

/// The part of a site is that of the plan with the rows of this site and those that name no site alone.
pub fn part_is_alone()
    ensures { (plan : Bound) (site : ℕ) → part_of (only site plan) site ≡ part_of plan site }
{}

/// Plans that agree in the program, in a site's rows and those that name no site, and in the circuits of the site's dies
/// make equal records of it with equal cuts, whatever else differs.
pub fn equal_parts_record_alike()
    ensures { (plan other : Bound) (site : ℕ) (cuts : List TryCut) → plan.program ≡ other.program
        → rows_for site plan.rows ≡ rows_for site other.rows → circuits_for plan site ≡ circuits_for other site
        → records (part_of plan site) cuts ≡ records (part_of other site) cuts }
{}

/// Parts that are alike, of one site and the same rows, with codes that say the same and dies of the same netlists, make
/// equal records with equal cuts, whatever instructions the codes have and in whatever order the gates lie.
pub fn alike_parts_record_alike()
    ensures all { (part other : Part) → ArePartsAlike part other → (cuts : List TryCut)
        → records part cuts ≡ records other cuts }
    ensures one { (part other : Part) → ArePartsAlike part other → (cuts : List TryCut) (die : ℕ) → die < dies_in part
        → touchdown part cuts die ≡ touchdown other cuts die }
{}

/// A plan that is bound to a whole program gives each site a part on which polls are true.
pub fn accepted_plan_gives_parts()
    ensures { (plan : Bound) (site : ℕ) → IsProgram plan.program → IsBound plan → IsPart (part_of plan site) }
{}
