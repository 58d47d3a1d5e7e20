//! What is driven and looked at in the cycles of a try.

ghost use Rattle.std.specs.Prelude.{◌≡◌, ℕ, ◌+◌, ◌≤◌, Bool, List, [], ◌∷◌, ◌++◌, OnOk, IfErr};
ghost use Rattle.tester_types.specs.declared.cycle.Cycle.{Cycle};
ghost use Rattle.packed_code.specs.Walk.{IsOf};
ghost use Rattle.cycle_run.specs.declared.stop.Stop.{Stop};
ghost use Rattle.cycle_run.specs.declared.stop.Stop.TheVariants as stop;
ghost use Rattle.cycle_run.specs.declared.setup.Setup.{Setup};
ghost use Rattle.cycle_run.specs.declared.setup.Until.{Until};
ghost use Rattle.cycle_run.specs.Setup.{IsSetUp, code_in};

use crate::setup::{Setup, Until};
use crate::stop::Stop;
use tester_types::Cycle;

/// What is driven and looked at, cycle by cycle. Its relation of playing is its own, as long as it composes.
pub trait Player {
    /// It stands between two cycles, and has room for so many more.
    ghost ready: { Setup → ℕ → Self → Type 0 };
    /// These cycles of an executive are played.
    ghost plays: { Setup → ℕ → List Cycle → Self → Self → Type 0 };
    /// One of them stops, for this reason.
    ghost stops: { Setup → ℕ → List Cycle → Self → Self → Stop → Type 0 };
    /// Whether there is enough.
    ghost done: { Until → Self → Bool → Type 0 };

    /// Plays a cycle of an executive.
    fn play(&mut self, setup: &Setup, exec: u16, cycle: Cycle) -> Result<(), Stop>
        requires set_up { IsSetUp setup.now }
        requires ready { ready setup.now 1 self.old }
        requires of { IsOf (code_in setup.now) cycle.table cycle.row }
        ensures plays { OnOk result (plays setup.now exec (cycle ∷ []) self.old self.new) }
        ensures stops { IfErr result (λ why. stops setup.now exec (cycle ∷ []) self.old self.new why) }
        ensures ready { OnOk result ((more : ℕ) → ready setup.now (more + 1) self.old
            → ready setup.now more self.new) };

    /// Whether there is enough.
    fn is_done(&self, until: Until) -> bool
        ensures { done until self.now result };

    ghost ready_less: { (setup : Setup) (some more : ℕ) (x : Self) → some ≤ more
        → ready setup more x → ready setup some x };

    ghost plays_none: { (setup : Setup) (exec : ℕ) (x : Self) → plays setup exec [] x x };

    ghost plays_more: { (setup : Setup) (exec : ℕ) (ones others : List Cycle) (x y z : Self)
        → plays setup exec ones x y → plays setup exec others y z → plays setup exec (ones ++ others) x z };

    ghost stops_more: { (setup : Setup) (exec : ℕ) (ones others rest : List Cycle) (x y z : Self) (why : Stop)
        → plays setup exec ones x y → stops setup exec others y z why
        → stops setup exec (ones ++ (others ++ rest)) x z why };

    ghost stops_short: { (setup : Setup) (exec : ℕ) (ones cycles : List Cycle) (x y : Self)
        → plays setup exec ones x y → stops setup exec cycles x y stop.NoMemory };
}
