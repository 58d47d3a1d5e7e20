//! The vars of a dump, in the order of their signals.

ghost use Rattle.std.specs.Prelude.{◌≡◌, ◌<◌, ◌∷◌, ◌++◌, [], OnOk, OnErr, IfOk, nat_lt, not, length};
ghost use Rattle.text_bytes.specs.Limits.{most_signals};
ghost use Rattle.vcd_text.specs.Sound.{is_var};
ghost use Rattle.vcd_text.specs.Standing.{next_of};

use std::alloc::Global;
use std::marker::Model;
use tester_types::{Items, NoMemory, Text};
use text_bytes::MOST_SIGNALS;

/// Vars: the number of each one's signal, and its name.
pub type VarList = Items<(u16, Text)>;

/// Vars that are read, with a mark for each signal that is among them.
#[derive(Drop)]
pub(crate) struct Names {
    alloc: Global,
    vars: Vec<(u16, Text)>,
    marks: Vec<bool>,
    least: u16,
}

impl Model for Names {
    ghost use Rattle.std.specs.Prelude.{◌≡◌, ◌<◌, ℕ, List, length, slice_index_or, false};
    ghost use Rattle.text_bytes.specs.Limits.{most_signals};
    ghost use Rattle.vcd_text.specs.Dump.{Var};
    ghost use Rattle.vcd_text.specs.Sound.{is_var};
    ghost use Rattle.vcd_text.specs.Standing.{next_of};

    ghost Value = { List Var };

    ghost view = { λ s. s.vars.items };

    ghost invariant = { λ s. (length s.marks.items ≡ most_signals) × (s.least ≡ next_of s.vars.items)
        × ((n : ℕ) → n < most_signals → slice_index_or s.marks.items n false ≡ is_var s.vars.items n) };
}

impl Names {
    /// No vars.
    pub fn new(alloc: Global) -> Result<Names, NoMemory>
        ensures { IfOk result (λ names. names ≡ []) }
    {
        let vars = Vec::new(alloc);
        let marks = vec![in alloc; false; MOST_SIGNALS]?;
        Ok(Names {
            alloc,
            vars,
            marks,
            least: 0,
        })
    }

    /// The least number that one more var may have.
    pub fn least(&self) -> u16
        ensures { result ≡ next_of self.now }
    {
        self.least
    }

    /// Whether a signal is among the vars.
    pub fn has(&self, signal: u16) -> bool
        requires { signal < most_signals }
        ensures { result ≡ is_var self.now signal }
    {
        self.marks[usize::from(signal)]
    }

    /// Whether there is a var.
    pub fn has_some(&self) -> bool
        ensures { result ≡ nat_lt 0 (length self.now) }
    {
        !self.vars.is_empty()
    }

    /// One more var.
    pub fn add(&mut self, signal: u16, name: &[u8]) -> Result<(), NoMemory>
        requires { signal < most_signals }
        ensures added { OnOk result (self.new ≡ self.old ++ (signal, name.now) ∷ []) }
        ensures kept { OnErr result (self.new ≡ self.old) }
    {
        let name = Text::from_slice(self.alloc, name)?;
        self.vars.push((signal, name))?;
        self.marks[usize::from(signal)] = true;
        self.least = signal + 1;
        Ok(())
    }

    /// The list of the vars.
    pub fn into_list(self) -> VarList
        ensures { result ≡ self }
    {
        Items::from_vec(self.vars)
    }
}
