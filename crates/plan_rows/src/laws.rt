//! Laws of plans: what a text says is one thing.

ghost use Rattle.std.specs.Prelude.{◌≡◌, ◌↔◌, ℕ, List, [], length, Ok, Err};
ghost use Rattle.answers.specs.Reading.{reading};
ghost use Rattle.plan_rows.specs.Plan.{HasRecords, IsPlan, IsFault, IsFaultOf};
ghost use Rattle.plan_rows.specs.Judging.{judge, plan_of};
ghost use Rattle.plan_rows.specs.declared.row.Row.{Row};
ghost use Rattle.plan_rows.specs.declared.fault.PlanFault.{PlanFault};

/// The records of a text are one list.
pub fn one_record_list()
    ensures { (bytes : List ℕ) (a b : List (List (List ℕ))) → HasRecords bytes a → HasRecords bytes b → a ≡ b }
{}

/// No text is a plan and has a fault.
pub fn no_fault_in_plan()
    ensures { (bytes : List ℕ) (rows : List Row) (fault : PlanFault) →
        IsPlan bytes rows → IsFault bytes fault → ⊥ }
{}

/// A fault is that of the first record that is refused, or of a text without records. Each record before it is a row,
/// so that its place, 1 more than the rows before it, is that among the records.
pub fn first_refused()
    ensures first { (records : List (List (List ℕ))) (fault : PlanFault) →
        (plan_of records ≡ Err fault) ↔ IsFaultOf records fault }
    ensures place { (records : List (List (List ℕ))) (rows : List Row) →
        reading judge [] records ≡ Ok rows → length rows ≡ length records }
{}
