//! Gates that are pending. They stand by the places of the gates in the netlist's order, so that a search for the next one in that
//! order passes 64 gates that are not at once.
ghost use Rattle.std.specs.Prelude.{◌≡◌, ℕ, ◌+◌, ◌<◌, ◌≤◌, true, false, length, IfOk, replicate};
ghost use Rattle.bench_net.specs.Wiring.{gate_at};
ghost use Rattle.die_sim.specs.Pending.{place_at, is_pending, nowhere, HasPlace, SameSeats, SetsPending, AreSeats, SeatedTo};

use bench_net::Netlist;
use place_bits::Bits;
use std::alloc::{AllocError, Global};
use std::marker::Model;

/// Which gates of a netlist are pending.
#[derive(Drop)]
pub struct Pending {
    places: Vec<u32>,
    bits: Bits,
}

impl Model for Pending {
    ghost use Rattle.die_sim.specs.Pending.{PendingGates, AreApart};

    ghost Value = { PendingGates };

    ghost view = { λ m. record { places = m.places.items; bits = m.bits } };

    ghost invariant = { λ m. AreApart (record { places = m.places.items; bits = m.bits }) };
}

impl Pending {
    /// All gates are pending.
    pub fn all(alloc: Global, net: &Netlist) -> Result<Pending, AllocError>
        ensures seats { IfOk result (λ m. AreSeats net.now.order m) }
        ensures pending { IfOk result (λ m. (n : ℕ) → is_pending m n ≡ gate_at net.now.net.drivers n) }
    {
        let mut places = nowhere(alloc, net.nets())?;
        let mut bits = Bits::new(alloc, net.order().len())?;
        seat_all(net, &mut places, &mut bits);
        Ok(Pending { places, bits })
    }

    /// A gate is pending.
    pub fn set(&mut self, net: u32)
        requires { HasPlace self.old net }
        ensures { SetsPending net true self.old self.new }
    {
        let place = self.places[net as usize];
        self.bits.set(place as usize);
    }

    /// The gate at this place is pending.
    pub fn set_at(&mut self, place: usize)
        requires { place < length self.old.bits }
        ensures sets { (n : ℕ) → place_at self.old n ≡ place → SetsPending n true self.old self.new }
        ensures seats { SameSeats self.old self.new }
    {
        self.bits.set(place);
    }

    /// The gate at this place is pending no more.
    pub fn clear_at(&mut self, place: usize)
        requires { place < length self.old.bits }
        ensures sets { (n : ℕ) → place_at self.old n ≡ place → SetsPending n false self.old self.new }
        ensures seats { SameSeats self.old self.new }
    {
        self.bits.clear(place);
    }

    /// The place of a net's gate.
    pub fn place(&self, net: u32) -> u32
        requires { HasPlace self.now net }
        ensures { result ≡ place_at self.now net }
    {
        self.places[net as usize]
    }

    /// The first place from this one on whose gate is pending, past the last gate where there is none.
    pub fn next(&self, from: usize) -> usize
        requires { from ≤ length self.now.bits }
        ensures onward { from ≤ result }
        ensures skipped { (g : ℕ) → from ≤ place_at self.now g → place_at self.now g < result
            → is_pending self.now g ≡ false }
        ensures found { (g : ℕ) → place_at self.now g ≡ result → result < length self.now.bits
            → is_pending self.now g ≡ true }
    {
        self.bits.next(from)
    }
}

/// No place for each net.
fn nowhere(alloc: Global, nets: u32) -> Result<Vec<u32>, AllocError>
    ensures { IfOk result (λ places. places.items ≡ replicate nets nowhere) }
{
    vec![in alloc; u32::MAX; nets as usize]
}

/// Gives each gate its place in the netlist's order, and it is pending.
fn seat_all(net: &Netlist, places: &mut Vec<u32>, bits: &mut Bits)
    requires none { places.old.items ≡ replicate (length net.now.net.names) nowhere }
    requires room { length net.now.order ≤ length bits.old }
    ensures seated { SeatedTo net.now.order places.new.items bits.new (length net.now.order) }
    ensures size { length bits.new ≡ length bits.old }
{
    for (place, gate) in net.order().iter().enumerate() {
        places[*gate as usize] = place as u32;
        bits.set(place);
    }
}
