//! Laws of netlists: what a text says is one thing.

ghost use Rattle.std.specs.Prelude.{◌≡◌, ℕ, List};
ghost use Rattle.bench_net.specs.Circuit.{Net};
ghost use Rattle.bench_net.specs.Net.{IsNet};
ghost use Rattle.bench_net.specs.Fault.{IsFault};
ghost use Rattle.bench_net.specs.declared.fault.NetFault.{NetFault};

/// A text names one net list.
pub fn one_net()
    ensures { (bytes : List ℕ) (a b : Net) → IsNet bytes a → IsNet bytes b → a ≡ b }
{}

/// A text has one fault.
pub fn one_fault()
    ensures { (bytes : List ℕ) (a b : NetFault) → IsFault bytes a → IsFault bytes b → a ≡ b }
{}

/// No text names a net list and has a fault.
pub fn no_fault_in_net()
    ensures { (bytes : List ℕ) (net : Net) (fault : NetFault) → IsNet bytes net → IsFault bytes fault → ⊥ }
{}
