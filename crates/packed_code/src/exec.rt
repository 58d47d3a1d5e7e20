//! An executive of a code.

ghost use Rattle.std.specs.Prelude.{◌≡◌, ◌≤◌, ◌^◌, false};
ghost use Rattle.packed_code.specs.Meaning.{cycle_count};
ghost use Rattle.packed_code.specs.Whole.{IsWhole, IsRest};

use crate::counting::cycles;
use crate::packed::{PackedInstr, PackedInstrList};
use crate::parts::CodeChainList;
use std::marker::Model;
use tester_types::{Items, Text};

/// An executive: its name, empty where it has none, its scan chains, and its instructions, which it keeps packed.
#[derive(Drop)]
pub struct CodeExec {
    name: Text,
    chains: CodeChainList,
    instrs: PackedInstrList,
    cycles: u64,
}

impl Model for CodeExec {
    ghost use Rattle.std.specs.Prelude.{◌≡◌};
    ghost use Rattle.packed_code.specs.Program.{Exec};
    ghost use Rattle.packed_code.specs.Meaning.{cycle_count};

    ghost Value = { Exec };

    ghost view = { λ e. record { name = e.name; chains = e.chains; instrs = e.instrs } };

    ghost invariant = { λ e. e.cycles ≡ cycle_count e.instrs };
}

/// Executives in order.
pub type CodeExecList = Items<CodeExec>;

impl CodeExec {
    /// The executive of these parts.
    pub fn new(name: Text, chains: CodeChainList, instrs: PackedInstrList) -> CodeExec
        requires { IsWhole instrs }
        ensures { result ≡ record { name = name; chains = chains; instrs = instrs } }
    {
        let cycles = cycles(instrs.as_slice());
        CodeExec {
            name,
            chains,
            instrs,
            cycles,
        }
    }

    /// Its name, empty where it has none.
    pub fn name(&self) -> &[u8]
        ensures { result.now ≡ self.now.name }
    {
        self.name.as_slice()
    }

    /// Its scan chains.
    pub fn chains(&self) -> &CodeChainList
        ensures { result.now ≡ self.now.chains }
    {
        &self.chains
    }

    /// Its instructions in order.
    pub fn instrs(&self) -> &[PackedInstr]
        ensures { result.now ≡ self.now.instrs }
    {
        self.instrs.as_slice()
    }

    /// How many cycles it has.
    pub fn cycles(&self) -> u64
        ensures { result ≡ cycle_count self.now.instrs }
    {
        self.cycles
    }
}
