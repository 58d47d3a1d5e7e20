//! For each net the places of the gates that read it, in one list.
ghost use Rattle.std.specs.Prelude.{◌≡◌, ℕ, ◌<◌, ◌+◌, ◌++◌, map, length, All, IfOk, OnOk};
ghost use Rattle.die_sim.specs.Pending.{HasPlace, AreSeats, place_at};
ghost use Rattle.die_sim.specs.Readers.{cut, IsCutAt, AreReaderPlaces};

use crate::pending::Pending;
use bench_net::Netlist;
use std::alloc::{AllocError, Global};

/// The places of the gates that read each net, net by net, and where those of each net start.
#[derive(Drop)]
pub struct Readers {
    pub starts: Vec<usize>,
    pub places: Vec<u32>,
}

/// Puts the places of these gates behind the others.
fn push_places(places: &mut Vec<u32>, pending: &Pending, nets: &[u32]) -> Result<(), AllocError>
    requires { All (λ g. HasPlace pending.now g) nets.now }
    ensures { OnOk result (places.new.items ≡ places.old.items ++ map (place_at pending.now) nets.now) }
{
    for net in nets {
        places.push(pending.place(*net))?;
    }
    Ok(())
}

impl Readers {
    /// The readers of the nets of a netlist.
    pub fn new(alloc: Global, net: &Netlist, pending: &Pending) -> Result<Readers, AllocError>
        requires { AreSeats net.now.order pending.now }
        ensures { IfOk result (λ r. AreReaderPlaces net.now r.starts.items r.places.items) }
    {
        let mut starts = Vec::new(alloc);
        let mut places = Vec::new(alloc);
        starts.push(0)?;
        for n in 0..net.nets() {
            push_places(&mut places, pending, net.readers(n))?;
            starts.push(places.len())?;
        }
        Ok(Readers { starts, places })
    }

    /// The places of the gates that read a net.
    pub fn at(&self, net: u32) -> &[u32]
        requires within { net + 1 < length self.now.starts.items }
        requires cut { IsCutAt self.now.starts.items self.now.places.items net }
        ensures { result.now ≡ cut self.now.starts.items self.now.places.items net }
    {
        let from = self.starts[net as usize];
        let to = self.starts[net as usize + 1];
        &self.places[from..to]
    }
}
