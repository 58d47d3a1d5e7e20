//! Drives a chain of gates through a number of moments and prints how many gates were evaluated, so that it can be timed.
//! The words are the number of gates, the number of moments, and any third word for moments that change nothing.

ghost use Rattle.std.specs.Prelude.{◌≡◌, [], ◌∷◌, IfOk};
ghost use Rattle.die_sim.specs.Die.{bind_at};
ghost use Rattle.die_sim.specs.declared.image.Bind.TheVariants as bind;

use crate::words::number;
use bench_net::{NetFault, Netlist, read};
use die_sim::{Bind, BindList, Binding, DieImage, DieState, FaultList, Steps};
use std::alloc::{AllocError, Global};
use std::io;
use std::io::Print;
use std::sync::Arc;
use tester_types::Drive;
use text_bytes::MOST_BYTES;

/// So many gates, of which each reads the one before: a change of the input reaches them all.
fn chain(alloc: Global, gates: u32) -> Result<Vec<u8>, AllocError> {
    let mut text = Vec::from_slice(alloc, b"INPUT(g0)\n")?;
    for gate in 0..gates {
        let next = u64::from(gate) + 1;
        let line = format!(in alloc; "g{next} = NAND(g{gate}, g{gate})\n")?;
        text.extend_from_slice(line.as_bytes())?;
    }
    Ok(text)
}

/// An image whose one signal drives the first net, without a clock.
fn image(alloc: Global, net: Netlist) -> Result<DieImage, NetFault>
    ensures { IfOk result (λ i. i.binds ≡ bind.Input 0 ∷ []) }
{
    if net.nets() == 0 || !net.is_input(0) {
        return Err(NetFault::OutOfRange);
    }
    let nets = BindList::from_vec(vec![in alloc; Bind::Input(0)]?);
    Ok(DieImage {
        net: Arc::new(alloc, net)?,
        bind: Arc::new(alloc, Binding { clock: None, nets })?,
        faults: FaultList::from_vec(Vec::new(alloc)),
    })
}

/// Drives the signal in each of so many moments, to the same level where `still`, else up and down in turn. Answers how
/// many gates were evaluated.
fn drive(die: &mut DieState, moments: u32, still: bool) -> u64
    requires { bind_at die.old.device.binds 0 ≡ bind.Input 0 }
{
    let mut steps: Steps<()> = Steps::new();
    for moment in 0..moments {
        let level = if still || moment % 2 == 0 {
            Drive::Up
        } else {
            Drive::Down
        };
        die.apply(&[(0, level)], &mut steps);
    }
    steps.count()
}

/// How many gates are evaluated.
fn evaluations(alloc: Global, gates: u32, moments: u32, still: bool) -> Result<u64, NetFault> {
    let text = chain(alloc, gates)?;
    if text.len() > MOST_BYTES {
        return Err(NetFault::OutOfRange);
    }
    let net = read(alloc, text.as_slice())?;
    let image = image(alloc, net)?;
    match DieState::make(alloc, &image) {
        Ok(mut die) => Ok(drive(&mut die, moments, still)),
        Err(_) => Err(NetFault::NoMemory),
    }
}

/// Measures the moments of a die by the words behind `dies`.
pub fn run<R: Print + AllocGlobal>(rt: &R, words: &[String]) -> io::Result<()> {
    let (gates, moments) = (number(words, 0), number(words, 1));
    match evaluations(rt.alloc(), gates, moments, words.len() > 2) {
        Ok(count) => println!(rt; "{count} evaluations"),
        Err(fault) => println!(rt; "refused: {fault:?}"),
    }
}
