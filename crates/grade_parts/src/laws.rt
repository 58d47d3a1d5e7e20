//! Laws of the parts of a grade.

ghost use Rattle.std.specs.Prelude.{◌≡◌, ◌≤◌, ◌∷◌, ℕ, List, length};
ghost use Rattle.lot_plan.specs.Bound.{Bound};
ghost use Rattle.bench_net.specs.Circuit.{Net};
ghost use Rattle.bench_net.specs.Net.{IsNet};
ghost use Rattle.fault_grade.specs.Grade.{first_part, nets_in, grade_of};
ghost use Rattle.fault_grade.specs.declared.graded.Grade.{Grade};
ghost use Rattle.grade_listing.specs.GradeText.{grade_text};
ghost use Rattle.grade_parts.specs.Log.{GradeLog as Said, IsLog};
ghost use Rattle.grade_parts.specs.Merged.{merged_text, AreParts};
ghost use Rattle.grade_parts.specs.Printed.{AreOneLine, AreNames, said_by, part_texts, AreLogs};

/// A text says one thing of a grade at most.
pub fn one_log()
    ensures { (text : List ℕ) (a b : Said) → IsLog text a → IsLog text b → a ≡ b }
{}

/// The printed text of a grade, as that of a part, says the lines of the grade, where no name of a net has a line feed. So
/// it is with the names of an accepted netlist.
pub fn part_text_is_log()
    ensures log { (names : List (List ℕ)) (grade : Grade) → AreOneLine names
        → IsLog (grade_text names grade) (said_by names grade) }
    ensures names { (bytes : List ℕ) (net : Net) → IsNet bytes net → AreOneLine net.names }
{}

/// The texts of all parts of a grade, of however many, are those of parts of one grade, and of all of it, as they are asked
/// for where they are merged: where the names of the nets have no line feed, are printed as themselves and stand once. So it
/// is with the names of an accepted netlist.
pub fn parts_are_taken()
    ensures parts { (names : List (List ℕ)) (plan : Bound) (parts : ℕ) (logs : List Said) → AreNames names
        → nets_in (first_part plan) ≡ length names → 1 ≤ parts → AreLogs (part_texts names plan parts) logs
        → AreParts logs }
    ensures names { (bytes : List ℕ) (net : Net) → IsNet bytes net → AreNames net.names }
{}

/// Of however many parts a grade is, what the texts of all of them say is merged to the text of the whole grade, byte for
/// byte.
pub fn parts_are_grade()
    ensures { (names : List (List ℕ)) (plan : Bound) (parts : ℕ) (first : Said) (later : List Said) → AreOneLine names
        → 1 ≤ parts → AreLogs (part_texts names plan parts) (first ∷ later)
        → merged_text first later ≡ grade_text names (grade_of plan) }
{}
