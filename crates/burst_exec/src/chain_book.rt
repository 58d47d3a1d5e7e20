//! The chains of a text, kept by the names of their ScanStructures (IEEE 1450-1999, clause 20).

ghost use Rattle.std.specs.Prelude.{◌≡◌, ◌<◌, Some, length, slice_get, IfOk, OnOk};
ghost use Rattle.signal_groups.specs.Table.{table_of};
ghost use Rattle.stil_ast.specs.Meaning.Signals.{names_of};
ghost use Rattle.stil_ast.specs.declared.blocks.Blocks.{Blocks};
ghost use Rattle.scan_chain.specs.Fault.{Scans};
ghost use Rattle.burst_exec.specs.Booked.{AreBooked, AreChainsOf};

use indexmap::IndexMap;
use pattern_order::{Places, add_place, place_of};
use scan_chain::{Chains, build_named};
use signal_groups::SignalTable;
use std::alloc::{AllocError, Global};
use stil_ast::{Blocks, StilRefusal};

/// The chains of those ScanStructures that were asked for, made once for each name. They are numbered in the order of
/// asking.
#[derive(Drop)]
pub(crate) struct ChainBook<'a> {
    pub(crate) places: Places<'a>,
    pub(crate) made: Vec<Chains>,
}

impl<'a> ChainBook<'a> {
    /// None were asked for yet.
    pub(crate) fn new(alloc: Global) -> ChainBook<'a>
        ensures { (blocks : Blocks) → AreBooked blocks result }
    {
        ChainBook {
            places: IndexMap::new(alloc),
            made: Vec::new(alloc),
        }
    }

    /// The chains under a number, once more.
    fn again(&self, alloc: Global, number: usize) -> Result<Chains, AllocError>
        requires { number < length self.now.made.items }
        ensures { IfOk result (λ chains. slice_get self.now.made.items number ≡ Some chains) }
    {
        self.made[number].share(alloc)
    }

    /// Keeps the chains of a name.
    fn keep(&mut self, alloc: Global, title: &'a [u8], chains: &Chains) -> Result<(), AllocError>
        ensures { (blocks : Blocks) → AreBooked blocks self.old → AreChainsOf blocks title.now chains.now
            → OnOk result (AreBooked blocks self.new) }
    {
        let shared = chains.share(alloc)?;
        let number = self.made.len();
        self.made.push(shared)?;
        add_place(&mut self.places, title, number)?;
        Ok(())
    }

    /// The chains of the ScanStructures of a name, or the first fault of their declarations.
    pub(crate) fn chains(
        &mut self,
        alloc: Global,
        blocks: &Blocks,
        title: &'a [u8],
        signals: &SignalTable,
    ) -> Result<Chains, StilRefusal>
        requires signals { signals.now ≡ table_of (names_of blocks.now) }
        requires booked { AreBooked blocks.now self.old }
        ensures booked { OnOk result (AreBooked blocks.now self.new) }
        ensures scans { Scans blocks.now title.now result }
    {
        if let Some(number) = place_of(&self.places, title) {
            return Ok(self.again(alloc, number)?);
        }
        match build_named(alloc, blocks, title, signals) {
            Ok(chains) => {
                self.keep(alloc, title, &chains)?;
                Ok(chains)
            }
            Err(refusal) => Err(refusal),
        }
    }
}
