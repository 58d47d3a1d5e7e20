//! The words of all nets of 64 dies.
ghost use Rattle.std.specs.Prelude.{◌≡◌, false, IfOk, OnOk, replicate};
ghost use Rattle.bench_net.specs.Circuit.{IsWhole};
ghost use Rattle.die_words.specs.Lane.{nothing};
ghost use Rattle.die_words.specs.Board.{FitNets};

use crate::word::Word;
use bench_net::Netlist;
use die_sim::Pending;
use std::alloc::{AllocError, Global};

/// The words of all nets: at which levels faults fix them, what inputs are driven to and flip-flops keep, and the levels
/// that the nets have; beside them which inputs are driven off, and which gates are pending.
#[derive(Drop)]
pub(crate) struct NetWords {
    pub(crate) forces: Vec<Word>,
    pub(crate) offs: Vec<bool>,
    pub(crate) held: Vec<Word>,
    pub(crate) words: Vec<Word>,
    pub(crate) pending: Pending,
}

/// A word of nothing for each net.
fn no_words(alloc: Global, nets: u32) -> Result<Vec<Word>, AllocError>
    ensures { IfOk result (λ words. words.items ≡ replicate nets nothing) }
{
    vec![in alloc; Word { zeros: 0, ones: 0 }; nets as usize]
}

/// No net is driven off.
fn no_offs(alloc: Global, nets: u32) -> Result<Vec<bool>, AllocError>
    ensures { IfOk result (λ offs. offs.items ≡ replicate nets false) }
{
    vec![in alloc; false; nets as usize]
}

impl NetWords {
    /// Words for a netlist.
    pub(crate) fn of_net(alloc: Global, net: &Netlist) -> Result<NetWords, AllocError>
        ensures fit { IfOk result (λ n. FitNets net.now n) }
        ensures whole { OnOk result (IsWhole net.now) }
    {
        let count = net.nets();
        let forces = no_words(alloc, count)?;
        let offs = no_offs(alloc, count)?;
        let held = no_words(alloc, count)?;
        let words = no_words(alloc, count)?;
        let pending = Pending::all(alloc, net)?;
        Ok(NetWords {
            forces,
            offs,
            held,
            words,
            pending,
        })
    }
}
