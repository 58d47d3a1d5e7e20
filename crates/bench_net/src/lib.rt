//! Netlists in the bench form of the ISCAS-89 circuits: a text is read exactly, or refused by the
//! first of its faults.
#![tactic(auto)]

ghost use Rattle.std.specs.Prelude.{◌≡◌, ℕ, ◌≤◌, ◌⊎◌, length, IfOk, IfErr, MatchResult};
ghost use Rattle.text_bytes.specs.Limits.{most_bytes};
ghost use Rattle.bench_net.specs.Circuit.{Net};
ghost use Rattle.bench_net.specs.Net.{IsNet};
ghost use Rattle.bench_net.specs.Fault.{IsFault};
ghost use Rattle.bench_net.specs.declared.fault.NetFault.{NetFault};
ghost use Rattle.bench_net.specs.declared.fault.NetFault.TheVariants.{NoMemory};

use std::alloc::Global;

mod build;
mod fault;
mod gate;
mod laws;
mod line;
mod netlist;
mod nets;
mod numbers;
mod order;
mod table;
mod text;

pub use fault::{NetFault, NetName};
pub use gate::{Driver, GateKind};
pub use laws::{no_fault_in_net, one_fault, one_net};
pub use netlist::Netlist;
pub use nets::Nets;

/// The netlist that a text in the bench form names, or the first of its faults: `Netlist::read`.
pub fn read(alloc: Global, bytes: &[u8]) -> Result<Netlist, NetFault>
    requires { length bytes.now ≤ most_bytes }
    ensures found { IfOk result (λ n. IsNet bytes.now n.net) }
    ensures only { (net : Net) → IsNet bytes.now net
        → MatchResult result (λ n. n.net ≡ net) (λ e. e ≡ NoMemory) }
    ensures fault { IfErr result (λ e. (e ≡ NoMemory) ⊎ IsFault bytes.now e) }
    ensures refused { (f : NetFault) → IsFault bytes.now f
        → MatchResult result (λ _. ⊥) (λ e. (e ≡ NoMemory) ⊎ (e ≡ f)) }
{
    Netlist::read(alloc, bytes)
}
