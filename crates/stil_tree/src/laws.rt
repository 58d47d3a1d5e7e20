//! Laws of the definitions: tokens have one reading, and a place one block.

ghost use Rattle.std.specs.Prelude.{◌≡◌, ℕ, List, Option};
ghost use Rattle.stil_lex.specs.declared.token.Token.{Token};
ghost use Rattle.stil_tree.specs.Trees.{Trees};
ghost use Rattle.stil_tree.specs.Grammar.{Parses};
ghost use Rattle.stil_tree.specs.Faults.{IsFault};
ghost use Rattle.stil_tree.specs.Blocks.{IsBlock};
ghost use Rattle.stil_tree.specs.declared.fault.TreeFault.{TreeFault};

/// The statements of tokens are one forest.
pub fn one_forest()
    ensures { (tokens : List Token) (forest other : Trees) → Parses tokens forest → Parses tokens other
        → forest ≡ other }
{}

/// No tokens have both a forest and a fault.
pub fn forest_or_fault()
    ensures { (tokens : List Token) (forest : Trees) (fault : TreeFault) → Parses tokens forest
        → IsFault tokens fault → ⊥ }
{}

/// The block of a place is one.
pub fn one_block()
    ensures { (tokens : List Token) (found other : Option ℕ × Option ℕ) → IsBlock tokens found
        → IsBlock tokens other → found ≡ other }
{}
