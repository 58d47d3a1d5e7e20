//! Numbers in the order in which they first come, each with its place.

ghost use Rattle.std.specs.Prelude.{◌≡◌, ◌<◌, ◌++◌, ◌∷◌, [], ℕ, None, IfOk, OnOk, length, slice_index_or, if◌then◌else◌};
ghost use Rattle.flat_parts.specs.Order.{is_in, number_in};
ghost use Rattle.flat_stil.specs.Working.{IsPlace};

use std::alloc::Global;
use std::marker::Model;
use tester_types::NoMemory;

/// Numbers without a repeated one, in the order in which they came. Contracts see it as their list.
#[derive(Drop)]
pub(crate) struct Numbers {
    order: Vec<u32>,
    places: Vec<Option<usize>>,
}

impl Model for Numbers {
    ghost use Rattle.std.specs.Prelude.{ℕ, List, None, slice_index_or};
    ghost use Rattle.flat_stil.specs.Working.{IsPlace};

    ghost Value = { List ℕ };

    ghost view = { λ s. s.order.items };

    ghost invariant = { λ s. (n : ℕ) → IsPlace s.order.items n (slice_index_or s.places.items n None) };
}

impl Numbers {
    /// No numbers, with places for those below a bound.
    pub fn new(alloc: Global, bound: usize) -> Result<Numbers, NoMemory>
        ensures { IfOk result (λ numbers. numbers ≡ []) }
    {
        let order = Vec::new(alloc);
        let places = vec![in alloc; None; bound]?;
        Ok(Numbers { order, places })
    }

    /// The numbers.
    pub fn as_slice(&self) -> &[u32]
        ensures { result.now ≡ self.now }
    {
        self.order.as_slice()
    }

    /// The place of a number; how many there are where it is none of them.
    #[tactic(auto, using(crate::proofs::OrderLemmas::absent))]
    pub fn place(&self, number: u32) -> u64
        ensures { result ≡ number_in self.now number }
    {
        match self.known(number) {
            Some(place) => place as u64,
            None => self.order.len() as u64,
        }
    }

    /// Whether a number is among them.
    pub fn has(&self, number: u32) -> bool
        ensures { result ≡ is_in self.now number }
    {
        self.known(number).is_some()
    }

    /// The place of a number that is among them.
    fn known(&self, number: u32) -> Option<usize>
        ensures { IsPlace self.now number result }
    {
        let number = number as usize;
        if number < self.places.len() {
            self.places[number]
        } else {
            None
        }
    }

    /// Puts a number at the end, unless it is among them.
    pub fn add(&mut self, number: u32) -> Result<(), NoMemory>
        ensures { OnOk result (self.new ≡ (if is_in self.old number then self.old else self.old ++ number ∷ [])) }
    {
        if self.has(number) {
            return Ok(());
        }
        let last = self.order.len();
        reach(&mut self.places, number)?;
        self.order.push(number)?;
        self.places[number as usize] = Some(last);
        Ok(())
    }
}

/// Makes room for the place of a number, where there is none. All places stay.
fn reach(places: &mut Vec<Option<usize>>, number: u32) -> Result<(), NoMemory>
    ensures room { OnOk result (number < length places.new.items) }
    ensures kept { (n : ℕ) → slice_index_or places.new.items n None ≡ slice_index_or places.old.items n None }
{
    let many = number as usize + 1;
    if places.len() < many {
        places.resize(many, None)?;
    }
    Ok(())
}
