//! What follows from the definition of a text's front.

ghost use Rattle.std.specs.Prelude.{◌≡◌, ℕ, List};
ghost use Rattle.stil_ast.specs.Faults.FrontFaults.{Front};
ghost use Rattle.stil_program.specs.Front.{IsFront};

/// Of one text reading answers one thing: its blocks, or its first fault.
pub fn one_front()
    ensures { (bytes : List ℕ) (front other : Front) → IsFront bytes front → IsFront bytes other → front ≡ other }
{}
