//! Laws of the definitions.

ghost use Rattle.std.specs.Prelude.{◌≡◌, ℕ, List, Result};
ghost use Rattle.stil_ast.specs.Meaning.Times.{Met, Times};
ghost use Rattle.expr_text.specs.Ratio.{Ratio};
ghost use Rattle.expr_text.specs.Tree.{tree_of};
ghost use Rattle.expr_text.specs.Value.{named_of, value_of};
ghost use Rattle.expr_text.specs.Vars.{value_of_name};
ghost use Rattle.time_expr.specs.NamedValue.{met_of, value_by};
ghost use Rattle.time_expr.specs.TimesOf.{AreOfLanguage, times_of};
ghost use Rattle.expr_text.specs.declared.expr.Expr.{Expr};

/// The evaluation that is computed from texts is that of the language.
pub fn times_are_of_language()
    ensures { AreOfLanguage times_of }
{}

/// There is one evaluation of the language.
pub fn one_evaluation()
    ensures { (times other : Times Ratio) → AreOfLanguage times → AreOfLanguage other → times ≡ other }
{}

/// Where names stand for variables or for nothing, an expression has the value that it has under the variables.
pub fn names_are_variables()
    ensures { (names : List ℕ → Result Ratio Met) (vars : List (List ℕ × Ratio)) (expr : Expr)
        → ((name : List ℕ) → names name ≡ met_of (named_of (value_of_name name vars)))
        → value_by names (tree_of expr) ≡ met_of (value_of vars expr) }
{}
