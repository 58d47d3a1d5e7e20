//! Laws of grades.

ghost use Rattle.std.specs.Prelude.{◌≡◌, ◌*◌, ◌≤◌, ◌++◌, ℕ, None, List};
ghost use Rattle.die_sim.specs.declared.image.StuckAt.{StuckAt};
ghost use Rattle.lot_plan.specs.Bound.{Bound, binding_to};
ghost use Rattle.site_meaning.specs.Part.{Part, lot_in, skews_in, circuit_in, as_plan, order_in, image_in};
ghost use Rattle.site_meaning.specs.Trials.{uncut, trial};
ghost use Rattle.word_run.specs.First.{first_fail};
ghost use Rattle.fault_grade.specs.Grade.{first, nets_in, first_part, grade_in, grade_of};
ghost use Rattle.fault_grade.specs.Run.{run_of};

/// Where the plan has no order for a die's first try, keeps one fail, and has exactly these faults active in it, the
/// first failing cycle with these faults is that of the first kept fail of this try.
pub fn first_is_of_trial()
    ensures { (part : Part) (die : ℕ) (faults : List StuckAt) → order_in part die 1 ≡ None → (lot_in part).keep ≡ 1
        → (image_in part die 1).faults ≡ faults → first part die faults ≡ first_fail (trial part die 1 uncut).kept }
{}

/// Runs of neighbours, joined, are the run of both, and the run of all faults is the grade's list.
pub fn runs_are_joined()
    ensures joined { (part : Part) (from mid to : ℕ) → from ≤ mid → mid ≤ to
        → run_of part from mid ++ run_of part mid to ≡ run_of part from to }
    ensures all { (part : Part) → run_of part 0 (2 * nets_in part) ≡ (grade_in part).faults }
{}

/// Of a plan only the program, and the skews, the netlist and the binding of its first die count: plans that agree in
/// them have equal grades, whatever numbers, faults, stops and bins they have.
pub fn only_the_die_counts()
    ensures { (plan other : Bound) → plan.program ≡ other.program
        → skews_in (first_part plan) ≡ skews_in (first_part other)
        → circuit_in (first_part plan) 0 ≡ circuit_in (first_part other) 0
        → binding_to (as_plan (first_part plan)) (circuit_in (first_part plan) 0)
        ≡ binding_to (as_plan (first_part other)) (circuit_in (first_part other) 0)
        → grade_of plan ≡ grade_of other }
{}
