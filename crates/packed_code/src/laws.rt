//! Laws of what instructions mean.

ghost use Rattle.std.specs.Prelude.{◌≡◌, ◌++◌, ◌∷◌, [], List, length, false};
ghost use Rattle.packed_code.specs.Meaning.{Means, cycle_count};
ghost use Rattle.packed_code.specs.Nesting.{Runs};
ghost use Rattle.packed_code.specs.Whole.{IsRest};
ghost use Rattle.packed_code.specs.declared.instr.Entry.{Entry};
ghost use Rattle.packed_code.specs.declared.instr.Instr.{Instr};
ghost use Rattle.packed_code.specs.declared.instr.Instr.TheVariants.{Done};

/// The number of cycles that is counted without unrolling is the length of the list of cycles.
pub fn count_is_length()
    ensures { (code : List Instr) → cycle_count code ≡ length (Means code) }
{}

/// What an executive's instructions mean is what those before its Done run by how their loops nest.
pub fn meaning_is_nesting()
    ensures is { (front : List Instr) (cycles : List Entry) →
        Runs front cycles → Means (front ++ Done ∷ []) ≡ cycles }
    ensures has { (code : List Instr) → IsRest 0 false code →
        (front : List Instr) × (code ≡ front ++ Done ∷ []) × Runs front (Means code) }
{}
