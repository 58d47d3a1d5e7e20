//! Laws of the definitions.

ghost use Rattle.std.specs.Prelude.{◌≡◌, ◌<◌, ◌^◌, ℕ, ℤ, ◌*ℤ◌, unsigned_abs, Bool, List, Ok};
ghost use Rattle.expr_text.specs.Ratio.{Ratio, whole, sum_of, difference_of, product_of, quotient_of, least_of, greatest_of};
ghost use Rattle.expr_text.specs.Rational.{IsFraction, IsSum, IsDifference, IsProduct, IsRatio, IsLeast, IsGreatest};
ghost use Rattle.expr_text.specs.Unit.{femtoseconds_of};
ghost use Rattle.expr_text.specs.Tree.{Tree, number, tree_of};
ghost use Rattle.expr_text.specs.Value.{value_of};
ghost use Rattle.expr_text.specs.Spelling.{Spells};
ghost use Rattle.expr_text.specs.declared.unit.Unit.{Unit};
ghost use Rattle.expr_text.specs.declared.expr.Expr.{Expr};

/// A text spells one expression at most.
pub fn one_spelling_each()
    ensures { (text : List ℕ) (tree other : Tree) (in_range also_in_range : Bool)
        → Spells text tree in_range → Spells text other also_in_range
        → (tree ≡ other) × (in_range ≡ also_in_range) }
{}

/// Expressions with one tree have one value, wherever they lie in memory.
pub fn one_value_each()
    ensures { (vars : List (List ℕ × Ratio)) (expr other : Expr)
        → tree_of expr ≡ tree_of other → value_of vars expr ≡ value_of vars other }
{}

/// A whole number in a unit is that many times the unit's femtoseconds, where that is in range.
pub fn whole_numbers_in_units()
    ensures { (vars : List (List ℕ × Ratio)) (expr : Expr) (n : ℤ) (unit : Unit) → tree_of expr ≡ number (whole n) unit
        → unsigned_abs (n *ℤ femtoseconds_of unit) < 2 ^ 127
        → value_of vars expr ≡ Ok (whole (n *ℤ femtoseconds_of unit)) }
{}

/// A sum that is in range is that of rational numbers.
pub fn sums_are_rational()
    ensures { (r s t : Ratio) → IsFraction r → IsFraction s → sum_of r s ≡ Ok t → IsSum t r s }
{}

/// A difference that is in range is that of rational numbers.
pub fn differences_are_rational()
    ensures { (r s t : Ratio) → IsFraction r → IsFraction s → difference_of r s ≡ Ok t → IsDifference t r s }
{}

/// A product that is in range is that of rational numbers.
pub fn products_are_rational()
    ensures { (r s t : Ratio) → IsFraction r → IsFraction s → product_of r s ≡ Ok t → IsProduct t r s }
{}

/// A quotient that is in range is that of rational numbers.
pub fn quotients_are_rational()
    ensures { (r s t : Ratio) → IsFraction r → IsFraction s → quotient_of r s ≡ Ok t → IsRatio t r s }
{}

/// The lesser of two, where they can be compared.
pub fn lesser_is_least()
    ensures { (r s t : Ratio) → IsFraction r → IsFraction s → least_of r s ≡ Ok t → IsLeast t r s }
{}

/// The greater of two, where they can be compared.
pub fn greater_is_greatest()
    ensures { (r s t : Ratio) → IsFraction r → IsFraction s → greatest_of r s ≡ Ok t → IsGreatest t r s }
{}
