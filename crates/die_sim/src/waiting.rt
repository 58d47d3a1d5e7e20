//! Flip-flops that wait for an edge. One that keeps what its D net has captures nothing new, so an edge passes it; it
//! waits from the moment at which its D net's level changes.
ghost use Rattle.std.specs.Prelude.{◌≡◌, ℕ, ◌+◌, ◌<◌, ◌≤◌, ◌*◌, Bool, true, List, [], ◌∷◌, ◌++◌, length, cond, IfOk, OnOk, replicate};
ghost use Rattle.tester_types.specs.declared.level.Level.{Level};
ghost use Rattle.bench_net.specs.declared.gate.Driver.TheVariants.{Dff};
ghost use Rattle.bench_net.specs.Circuit.{IsWhole};
ghost use Rattle.bench_net.specs.Wiring.{driver_at};
ghost use Rattle.die_sim.specs.Walk.{is_flip_flop, AreFlipFlops};
ghost use Rattle.die_sim.specs.Waiting.{FlipFlops, first_at, next_at, waits_at, AreLinkedTo, AreWakers, SameLinks, Wakes, AreListed, AreTaken};

use crate::moment::Edge;
use bench_net::{Driver, Netlist};
use place_bits::{Bits, lowest, rest};
use std::alloc::{AllocError, Global};
use std::marker::Model;

/// The flip-flops of a netlist, which of them each net wakes, and which wait. A link is one more than a place among the
/// flip-flops, and 0 where there is none.
#[derive(Drop)]
pub(crate) struct Waiting {
    nets: Vec<u32>,
    firsts: Vec<u32>,
    nexts: Vec<u32>,
    bits: Bits,
}

impl Model for Waiting {
    ghost use Rattle.die_sim.specs.Waiting.{FlipFlops, AreLinked};

    ghost Value = { FlipFlops };

    ghost view = { λ m. record {
      nets = m.nets.items;
      firsts = m.firsts.items;
      nexts = m.nexts.items;
      bits = m.bits;
    } };

    ghost invariant = { λ m. AreLinked (record {
      nets = m.nets.items;
      firsts = m.firsts.items;
      nexts = m.nexts.items;
      bits = m.bits;
    }) };
}

impl Waiting {
    /// The flip-flops of a netlist, and none waits.
    pub(crate) fn new(alloc: Global, net: &Netlist) -> Result<Waiting, AllocError>
        ensures { IfOk result (λ m. AreWakers net.now.net.drivers m) }
    {
        let nets = flip_flops(alloc, net)?;
        let mut firsts = no_links(alloc, net.nets())?;
        let nexts = links(alloc, net, nets.as_slice(), &mut firsts)?;
        let bits = Bits::new(alloc, nets.len())?;
        Ok(Waiting {
            nets,
            firsts,
            nexts,
            bits,
        })
    }

    /// All flip-flops wait.
    pub(crate) fn wake_all(&mut self)
        ensures links { SameLinks self.old self.new }
        ensures all { (k : ℕ) → k < length self.old.nets → waits_at self.new.bits k ≡ true }
    {
        set_each(&mut self.bits, self.nets.len());
    }

    /// The flip-flops wait that have this D net.
    pub(crate) fn wake(&mut self, net: u32)
        requires { net < length self.old.firsts }
        ensures links { SameLinks self.old self.new }
        ensures wakes { Wakes self.old.nexts (first_at self.old.firsts net) self.old.bits self.new.bits }
    {
        wake_from(
            self.nexts.as_slice(),
            self.firsts[net as usize],
            &mut self.bits,
        );
    }

    /// Lists the flip-flops that capture at an edge, those that wait, and answers how many they are. After an edge that
    /// is certain none waits.
    pub(crate) fn take(&mut self, edge: Edge, list: &mut Vec<u32>) -> usize
        requires { length self.old.nets ≤ length list.old.items }
        ensures taken { AreTaken edge self.old self.new result list.new.items }
        ensures size { length list.new.items ≡ length list.old.items }
    {
        match edge {
            Edge::Keeps => 0,
            Edge::Doubts => list_waiting(self.nets.as_slice(), &self.bits, list),
            Edge::Takes => {
                let count = list_waiting(self.nets.as_slice(), &self.bits, list);
                self.bits.clear_all();
                count
            }
        }
    }
}

/// Whether a flip-flop drives.
fn is_flip_flop(driver: &Driver) -> bool
    ensures { result ≡ is_flip_flop driver.now }
{
    matches!(driver, Driver::Dff(_))
}

/// Adds a net to a list where it is a flip-flop.
fn push_flip_flop(list: &mut Vec<u32>, net: &Netlist, n: u32) -> Result<(), AllocError>
    requires { n < length net.now.net.names }
    ensures { OnOk result (list.new.items
        ≡ cond (is_flip_flop (driver_at net.now.net.drivers n)) (list.old.items ++ n ∷ []) list.old.items) }
{
    if is_flip_flop(net.driver(n)) {
        list.push(n)?;
    }
    Ok(())
}

/// The nets of all flip-flops.
fn flip_flops(alloc: Global, net: &Netlist) -> Result<Vec<u32>, AllocError>
    ensures all { IfOk result (λ list. AreFlipFlops net.now.net.drivers list.items (length net.now.net.drivers)) }
    ensures few { IfOk result (λ list. length list.items ≤ length net.now.net.names) }
{
    let mut list = Vec::new(alloc);
    for n in 0..net.nets() {
        push_flip_flop(&mut list, net, n)?;
    }
    Ok(list)
}

/// The D net of a flip-flop.
fn d_net(driver: &Driver) -> u32
    requires { is_flip_flop driver.now ≡ true }
    ensures { driver.now ≡ Dff result }
{
    match driver {
        Driver::Dff(pin) => *pin,
        _ => unreachable!(),
    }
}

/// No link for each net.
fn no_links(alloc: Global, nets: u32) -> Result<Vec<u32>, AllocError>
    ensures { IfOk result (λ links. links.items ≡ replicate nets 0) }
{
    vec![in alloc; 0; nets as usize]
}

/// Links each flip-flop to its D net, and answers the links from one flip-flop to the next.
fn links(
    alloc: Global,
    net: &Netlist,
    nets: &[u32],
    firsts: &mut Vec<u32>,
) -> Result<Vec<u32>, AllocError>
    requires whole { IsWhole net.now }
    requires none { firsts.old.items ≡ replicate (length net.now.net.names) 0 }
    requires flip_flops { AreFlipFlops net.now.net.drivers nets.now (length net.now.net.drivers) }
    requires few { length nets.now ≤ length net.now.net.names }
    ensures { IfOk result (λ nexts.
        AreLinkedTo net.now.net.drivers nets.now firsts.new.items nexts.items (length nets.now)) }
{
    let mut nexts = Vec::new(alloc);
    for (place, n) in nets.iter().enumerate() {
        let pin = d_net(net.driver(*n));
        nexts.push(firsts[pin as usize])?;
        firsts[pin as usize] = place as u32 + 1;
    }
    Ok(nexts)
}

/// Sets so many bits.
fn set_each(bits: &mut Bits, count: usize)
    requires { count ≤ length bits.old }
    ensures size { length bits.new ≡ length bits.old }
    ensures all { (k : ℕ) → k < count → waits_at bits.new k ≡ true }
{
    for place in 0..count {
        bits.set(place);
    }
}

/// The flip-flops wait that are reached from a link.
fn wake_from(nexts: &[u32], first: u32, bits: &mut Bits)
    requires within { first ≤ length nexts.now }
    requires back { (k : ℕ) → next_at nexts.now k ≤ k }
    requires room { length nexts.now ≤ length bits.old }
    ensures { Wakes nexts.now first bits.old bits.new }
{
    let mut link = first;
    while link > 0 {
        let place = link as usize - 1;
        bits.set(place);
        link = nexts[place];
    }
}

/// Lists the nets of the flip-flops that wait, and answers how many they are.
fn list_waiting(nets: &[u32], bits: &Bits, list: &mut Vec<u32>) -> usize
    requires room { length nets.now ≤ length bits.now }
    requires size { length bits.now ≤ 65600 }
    requires list { length nets.now ≤ length list.old.items }
    ensures listed { AreListed nets.now bits.now (length nets.now) result list.new.items }
    ensures size { length list.new.items ≡ length list.old.items }
{
    let mut count = 0;
    for at in 0..bits.words() {
        count = list_word(nets, bits, at, list, count);
    }
    count
}

/// Lists the nets of the flip-flops that wait of a word behind those that are listed, and answers how many they are now.
/// The word is in hand: a step over its marks doesn't wait for the one before.
fn list_word(nets: &[u32], bits: &Bits, at: usize, list: &mut Vec<u32>, listed: usize) -> usize
    requires within { 64 * at < length bits.now }
    requires size { length bits.now ≤ 65600 }
    requires list { length nets.now ≤ length list.old.items }
    requires listed { AreListed nets.now bits.now (64 * at) listed list.old.items }
    requires few { listed ≤ 64 * at }
    ensures listed { AreListed nets.now bits.now (64 * at + 64) result list.new.items }
    ensures few { result ≤ 64 * at + 64 }
    ensures size { length list.new.items ≡ length list.old.items }
{
    let mut count = listed;
    let mut left = bits.word(at);
    while left > 0 {
        count = list_place(nets, 64 * at + lowest(left), list, count);
        left = rest(left);
    }
    count
}

/// Lists the net of the flip-flop at a place, if there is one, behind those that are listed, and answers how many they are
/// now.
fn list_place(nets: &[u32], place: usize, list: &mut Vec<u32>, listed: usize) -> usize
    requires list { length nets.now ≤ length list.old.items }
    requires few { listed ≤ place }
    ensures listed { (bits : List Bool) → AreListed nets.now bits place listed list.old.items
        → AreListed nets.now bits (place + 1) result list.new.items }
    ensures few { result ≤ place + 1 }
    ensures size { length list.new.items ≡ length list.old.items }
{
    if place >= nets.len() {
        return listed;
    }
    list[listed] = nets[place];
    listed + 1
}
