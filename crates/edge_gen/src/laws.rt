//! A law of cycles: their moments depend on their start by its date alone.

ghost use Rattle.std.specs.Prelude.{◌≡◌, ℕ, List, ℤ, map};
ghost use Rattle.tester_types.specs.declared.wave.Table.{Table};
ghost use Rattle.edge_gen.specs.Moments.{moments_of, later};

/// The moments of a cycle are those of the cycle dated from 0, each so much later as the cycle begins.
pub fn moments_of_a_later_cycle()
    ensures { (table : Table) (row : List ℕ) (skews : List ℤ) (start : ℕ) →
        moments_of table row skews start ≡ map (later start) (moments_of table row skews 0) }
{}
