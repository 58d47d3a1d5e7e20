//! The values that names stand for.

ghost use Rattle.std.specs.Prelude.{◌≡◌, [], OnOk, OnErr};
ghost use Rattle.expr_text.specs.Vars.{value_of_name, with_value};

use crate::fraction::Fraction;
use indexmap::IndexMap;
use std::alloc::{AllocError, Global};
use std::marker::Model;

/// Names with the fractions that they stand for, each name once.
#[derive(Drop)]
pub struct Vars {
    values: IndexMap<Vec<u8>, Fraction>,
}

impl Model for Vars {
    ghost use Rattle.std.specs.Prelude.{List, ℕ, map};
    ghost use Rattle.expr_text.specs.Ratio.{Ratio};
    ghost use Rattle.expr_text.specs.Vars.{named_value};

    ghost Value = { List (List ℕ × Ratio) };

    ghost view = { λ vars. map named_value vars.values.entries };
}

impl Vars {
    /// No names.
    pub fn new(alloc: Global) -> Vars
        ensures { result ≡ [] }
    {
        Vars {
            values: IndexMap::new(alloc),
        }
    }

    /// What the name stands for, if for anything.
    pub fn get(&self, name: &[u8]) -> Option<Fraction>
        ensures { result ≡ value_of_name name.now self.now }
    {
        self.values.get(name).copied()
    }

    /// Lets a name stand for a value, unless it has one.
    pub fn add(&mut self, alloc: Global, name: &[u8], value: Fraction) -> Result<(), AllocError>
        ensures added { OnOk result (self.new ≡ with_value name.now value self.old) }
        ensures err { OnErr result (self.new ≡ self.old) }
    {
        if self.values.contains_key(name) {
            return Ok(());
        }
        let name = Vec::from_slice(alloc, name)?;
        self.values.insert(name, value)?;
        Ok(())
    }
}
