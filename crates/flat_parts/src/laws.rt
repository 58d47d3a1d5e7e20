//! Laws of what flat texts are made of.

ghost use Rattle.std.specs.Prelude.{◌≡◌, false, List, [], ◌∷◌, ◌++◌};
ghost use Rattle.packed_code.specs.declared.instr.Instr.{Instr};
ghost use Rattle.packed_code.specs.declared.instr.Instr.TheVariants.{Done};
ghost use Rattle.packed_code.specs.Whole.{IsRest};
ghost use Rattle.flat_parts.specs.Nests.{Nest, instrs_in};

/// The instructions that an executive may have nest, with a Done behind them.
pub fn instructions_nest()
    ensures { (code : List Instr) → IsRest 0 false code → (nest : Nest) × (code ≡ instrs_in nest ++ Done ∷ []) }
{}
