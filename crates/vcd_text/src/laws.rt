//! What is so of all dumps.

ghost use Rattle.std.specs.Prelude.{◌≡◌, List};
ghost use Rattle.die_sim.specs.Socket.{Calls};
ghost use Rattle.vcd_text.specs.Dump.{Var, dump_of};
ghost use Rattle.vcd_text.specs.Sound.{IsSound};

/// No two sound pairs of vars and a tape have one dump.
pub fn one_dump()
    ensures { (vars names : List Var) (calls tape : Calls) → IsSound vars calls → IsSound names tape
        → dump_of vars calls ≡ dump_of names tape → (vars ≡ names) × (calls ≡ tape) }
{}
