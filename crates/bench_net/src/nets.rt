//! A list of nets, each by its number.
ghost use Rattle.std.specs.Prelude.{◌≡◌, ℕ, [], ◌∷◌, ◌++◌, length, IsTrue, ◌↔◌, OnOk, OnErr};

use std::alloc::{AllocError, Global};
use std::marker::Model;

/// Nets by their numbers, in order: what a gate reads, or the gates that read a net.
#[derive(Debug, Drop)]
pub struct Nets {
    numbers: Vec<u32>,
}

impl Model for Nets {
    ghost use Rattle.std.specs.Prelude.{List, ℕ};

    ghost Value = { List ℕ };

    ghost view = { λ n. n.numbers.items };
}

impl Nets {
    /// No nets, which takes no memory.
    pub fn new(alloc: Global) -> Self
        ensures { result ≡ [] }
    {
        Nets {
            numbers: Vec::new(alloc),
        }
    }

    /// The nets of a `Vec`, in its order.
    pub fn from_vec(numbers: Vec<u32>) -> Self
        ensures { result ≡ numbers.items }
    {
        Nets { numbers }
    }

    /// The nets as a `Vec`, in their order.
    pub fn into_vec(self) -> Vec<u32>
        ensures { result.items ≡ self }
    {
        self.numbers
    }

    /// The nets, in their order.
    pub fn as_slice(&self) -> &[u32]
        ensures { result.now ≡ self.now }
    {
        self.numbers.as_slice()
    }

    /// How many nets the list has, with repetitions.
    pub fn len(&self) -> usize
        ensures { result ≡ length self.now }
    {
        self.numbers.len()
    }

    /// Whether the list has no nets.
    pub fn is_empty(&self) -> bool
        ensures { IsTrue result ↔ (length self.now ≡ 0) }
    {
        self.numbers.is_empty()
    }

    /// Puts a net at the end.
    pub fn push(&mut self, net: u32) -> Result<(), AllocError>
        ensures ok { OnOk result (self.new ≡ self.old ++ net ∷ []) }
        ensures err { OnErr result (self.new ≡ self.old) }
    {
        self.numbers.push(net)?;
        Ok(())
    }
}
