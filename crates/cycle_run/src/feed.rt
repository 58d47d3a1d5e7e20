//! Where the cycles of an executive come from.

ghost use Rattle.std.specs.Prelude.{◌≡◌, ℕ, ◌<◌, ◌∷◌, List, length, IfOk, OnOk};
ghost use Rattle.tester_types.specs.declared.cycle.Cycle.{Cycle};
ghost use Rattle.packed_code.specs.Program.{Program};
ghost use Rattle.packed_code.specs.Walk.{IsOf, IsOver, cycles_left};

use packed_code::{Code, Walk};
use tester_types::{Cycle, NoMemory};

/// Where the cycles of an executive come from, one after another.
pub trait Feed {
    /// It is of this program, and may be asked.
    ghost can: { Program → Self → Type 0 };
    /// The cycles that are to come.
    ghost coming: { Program → Self → List Cycle };
    /// What it was lent is lent still.
    ghost keeps: { Self → Self → Type 0 };

    /// The next cycle.
    fn give(&mut self, code: &Code) -> Result<Cycle, NoMemory>
        requires can { can code.now self.old }
        requires some { 0 < length (coming code.now self.old) }
        ensures can { OnOk result (can code.now self.new) }
        ensures given { IfOk result (λ cycle. coming code.now self.old ≡ cycle ∷ coming code.now self.new) }
        ensures named { IfOk result (λ cycle. IsOf code.now cycle.table cycle.row) }
        ensures keeps { keeps self.old self.new };

    ghost keeps_itself: { (x : Self) → keeps x x };

    ghost keeps_on: { (x y z : Self) → keeps x y → keeps y z → keeps x z };
}

impl Feed for Walk {
    ghost can = { IsOver };

    ghost coming = { cycles_left };

    ghost keeps = { λ _ _. Unit {0} };

    fn give(&mut self, code: &Code) -> Result<Cycle, NoMemory> {
        match self.next(code) {
            Some(cycle) => Ok(cycle),
            None => unreachable!(),
        }
    }

    ghost keeps_itself = { λ _. tt };

    ghost keeps_on = { λ _ _ _ _ _. tt };
}
