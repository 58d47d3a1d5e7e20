//! The netlist that a text names.
ghost use Rattle.std.specs.Prelude.{◌≡◌, ℕ, ◌<◌, ◌≤◌, ◌≢◌, ◌↔◌, ◌⊎◌, [], length, IsTrue, IfSome, IfNone, IfOk, IfErr, MatchResult, Some, None, slice_get, slice_index_or, map, All};
ghost use Rattle.text_bytes.specs.Texts.{key_texts};
ghost use Rattle.text_bytes.specs.Limits.{most_bytes, most_nets};
ghost use Rattle.bench_net.specs.Wiring.{driver_at};
ghost use Rattle.bench_net.specs.Circuit.{Circuit, Net, IsWhole};
ghost use Rattle.bench_net.specs.Net.{names, net_of, IsDriven, IsNet};
ghost use Rattle.bench_net.specs.Fault.{Answers, IsFault, IsRefusal};
ghost use Rattle.bench_net.specs.Numbers.{HasPins, IsNetOf, numbered};
ghost use Rattle.bench_net.specs.Views.{form_of};
ghost use Rattle.bench_net.specs.declared.gate.Driver.{Driver};
ghost use Rattle.bench_net.specs.declared.gate.Driver.TheVariants.{Input};
ghost use Rattle.bench_net.specs.declared.fault.NetFault.{NetFault};
ghost use Rattle.bench_net.specs.declared.fault.NetFault.TheVariants.{NoMemory};

use crate::build::{first_loop, first_wrong_arity, missing};
use crate::fault::{NetFault, NetName};
use crate::gate::Driver;
use crate::line::Line;
use crate::nets::Nets;
use crate::numbers::{Numbered, numbered_lines};
use crate::order::{readers, sorted};
use crate::table::{driven_nets, tables};
use crate::text::read_lines;
use indexmap::IndexSet;
use std::alloc::{AllocError, Global};
use std::marker::Model;
use text_bytes::MOST_NETS;

/// A netlist without gate loops. Its nets are numbered from 0 in the order in which the text first
/// names them.
#[derive(Drop)]
pub struct Netlist {
    names: IndexSet<Vec<u8>>,
    drivers: Vec<Driver>,
    outputs: Vec<bool>,
    order: Vec<u32>,
    readers: Vec<Nets>,
}

impl Model for Netlist {
    ghost use Rattle.bench_net.specs.Circuit.{Circuit, IsWhole};

    ghost Value = { Circuit };

    ghost use Rattle.bench_net.specs.Inside.{circuit_of};

    ghost view = { circuit_of };

    ghost invariant = { λ n. IsWhole (circuit_of n) };
}

impl Netlist {
    /// The netlist that a text in the bench form names, or the first of its faults.
    pub fn read(alloc: Global, bytes: &[u8]) -> Result<Self, NetFault>
        requires { length bytes.now ≤ most_bytes }
        ensures found { IfOk result (λ n. IsNet bytes.now n.net) }
        ensures only { (net : Net) → IsNet bytes.now net
            → MatchResult result (λ n. n.net ≡ net) (λ e. e ≡ NoMemory) }
        ensures fault { IfErr result (λ e. (e ≡ NoMemory) ⊎ IsFault bytes.now e) }
        ensures refused { (f : NetFault) → IsFault bytes.now f
            → MatchResult result (λ _. ⊥) (λ e. (e ≡ NoMemory) ⊎ (e ≡ f)) }
    {
        read_text(alloc, bytes)
    }

    /// How many nets there are, at most 65,536.
    pub fn nets(&self) -> u32
        ensures count { result ≡ length self.now.net.names }
        ensures whole { IsWhole self.now }
    {
        self.names.len() as u32
    }

    /// The number of the net of this name, if there is one.
    pub fn net(&self, name: &[u8]) -> Option<u32>
        ensures found { IfSome result (λ n. slice_get self.now.net.names n ≡ Some name.now) }
        ensures none { IfNone result ((n : ℕ) → slice_get self.now.net.names n ≢ Some name.now) }
    {
        let place = self.names.get_index_of(name)?;
        Some(place as u32)
    }

    /// The name of a net.
    pub fn name(&self, net: u32) -> &[u8]
        requires { net < length self.now.net.names }
        ensures { slice_get self.now.net.names net ≡ Some result.now }
    {
        match self.names.get_index(net as usize) {
            Some(name) => name.as_slice(),
            None => unreachable!(),
        }
    }

    /// Whether the net is an input.
    pub fn is_input(&self, net: u32) -> bool
        requires { net < length self.now.net.names }
        ensures { IsTrue result ↔ (driver_at self.now.net.drivers net ≡ Input) }
    {
        matches!(self.driver(net), Driver::Input)
    }

    /// Whether the net is an output.
    pub fn is_output(&self, net: u32) -> bool
        requires { net < length self.now.net.names }
        ensures { slice_get self.now.net.outputs net ≡ Some result }
    {
        self.outputs[net as usize]
    }

    /// What drives the net.
    pub fn driver(&self, net: u32) -> &Driver
        requires { net < length self.now.net.names }
        ensures { result.now ≡ driver_at self.now.net.drivers net }
    {
        &self.drivers[net as usize]
    }

    /// The nets of the gates that read the net, a gate as often as it reads it.
    pub fn readers(&self, net: u32) -> &[u32]
        requires { net < length self.now.net.names }
        ensures { result.now ≡ slice_index_or self.now.readers net [] }
    {
        self.readers[net as usize].as_slice()
    }

    /// The nets of the gates, each after those of the gates that it reads.
    pub fn order(&self) -> &[u32]
        ensures order { result.now ≡ self.now.order }
        ensures whole { IsWhole self.now }
    {
        self.order.as_slice()
    }
}

/// The netlist of a text.
fn read_text(alloc: Global, bytes: &[u8]) -> Result<Netlist, NetFault>
    requires { length bytes.now ≤ most_bytes }
    ensures { Answers (λ n. IsNet bytes.now n.net) (IsFault bytes.now) result }
{
    let lines = read_lines(alloc, bytes)?;
    netlist_of(alloc, lines.as_slice())
}

/// The netlist of lines.
fn netlist_of(alloc: Global, lines: &[Line<'_>]) -> Result<Netlist, NetFault>
    requires { All HasPins (map form_of lines.now) }
    ensures { Answers (λ n. IsNetOf (map form_of lines.now) n.net) (IsRefusal (map form_of lines.now)) result }
{
    let (names, numbered) = numbered_lines(alloc, lines)?;
    checked(alloc, &names, lines, numbered.as_slice())?;
    let (drivers, outputs) = tables(alloc, names.len(), numbered)?;
    ordered(alloc, names, lines, drivers, outputs)
}

/// The netlist of nets whose drivers are known, unless its gates form a loop.
fn ordered(
    alloc: Global,
    all: IndexSet<Vec<u8>>,
    lines: &[Line<'_>],
    drivers: Vec<Driver>,
    outputs: Vec<bool>,
) -> Result<Netlist, NetFault>
    requires names { key_texts all.keys ≡ names (map form_of lines.now) }
    requires driven_once { IsDriven (map form_of lines.now) }
    requires pins { All HasPins (map form_of lines.now) }
    requires drivers { drivers.items ≡ (net_of (map form_of lines.now)).drivers }
    requires outputs { outputs.items ≡ (net_of (map form_of lines.now)).outputs }
    ensures { Answers (λ n. IsNetOf (map form_of lines.now) n.net) (IsRefusal (map form_of lines.now)) result }
{
    let readers = readers(alloc, drivers.as_slice())?;
    let (order, left) = sorted(alloc, drivers.as_slice(), readers.as_slice())?;
    match first_loop(&all, left.as_slice(), lines) {
        Some(net) => Err(NetFault::Loop(NetName::from_slice(alloc, net)?)),
        None => Ok(Netlist {
            names: all,
            drivers,
            outputs,
            order,
            readers,
        }),
    }
}

/// Lines that give each net one driver, of as many nets as it takes, or the refusal of others.
fn checked(
    alloc: Global,
    all: &IndexSet<Vec<u8>>,
    lines: &[Line<'_>],
    said: &[Numbered],
) -> Result<(), NetFault>
    requires names { key_texts all.now.keys ≡ names (map form_of lines.now) }
    requires lines { length (names (map form_of lines.now)) ≤ most_nets
        → said.now ≡ map (numbered (names (map form_of lines.now))) (map form_of lines.now) }
    ensures { Answers (λ _. IsDriven (map form_of lines.now)) (IsRefusal (map form_of lines.now)) result }
{
    if all.len() > MOST_NETS {
        return Err(NetFault::OutOfRange);
    }
    if let Some(net) = first_wrong_arity(lines) {
        return Err(NetFault::Arity(NetName::from_slice(alloc, net)?));
    }
    let driven = driven_nets(alloc, all, said)?;
    if let Some(net) = missing(all, driven.as_slice(), lines) {
        return Err(NetFault::Missing(NetName::from_slice(alloc, net)?));
    }
    Ok(())
}
