//! The chains of an executive, and the cells that marks name (IEEE 1450-1999, clause 20).

ghost use Rattle.std.specs.Prelude.{◌≡◌, ◌==◌, ◌<◌, All, ℕ, List, find, filter, length, slice_get, option_map, IfOk, OnOk};
ghost use Rattle.std.specs.List.{list_any};
ghost use Rattle.std.specs.Option.{option_copied};
ghost use Rattle.stil_ast.specs.Meaning.Signals.{Names};
ghost use Rattle.stil_ast.specs.Meaning.Chains.{Chain, scan_outs};
ghost use Rattle.signal_groups.specs.Table.{table_of};
ghost use Rattle.scan_chain.specs.Held.{chain_in, chain_behind, chains_in};
ghost use Rattle.scan_chain.specs.Cell.{by_names, chain_at, cell_in, cell_of};

use crate::outs::ends_among;
use cell_names::CellNames;
use signal_groups::{SignalList, SignalTable};
use std::alloc::{AllocError, Global};
use std::marker::Model;
use tester_types::Text;

/// A scan chain: its name, the number of the signal at its end, its length, and its cells from scan-in to scan-out.
#[derive(Drop)]
pub struct ScanChain {
    pub name: Text,
    pub scan_out: u16,
    /// In cells; it may differ from the number of those that are listed.
    pub length: usize,
    pub cells: CellNames,
}

/// The chains of an executive in text order, one for each signal at which chains end.
#[derive(Drop)]
pub struct Chains {
    pub(crate) chains: Vec<ScanChain>,
}

impl Model for Chains {
    ghost use Rattle.std.specs.Prelude.{List};
    ghost use Rattle.stil_ast.specs.Meaning.Chains.{Chain};
    ghost use Rattle.scan_chain.specs.Held.{chains_in};

    ghost Value = { List Chain };

    ghost view = { λ c. chains_in c.chains.items };
}

impl Chains {
    /// The chains in text order.
    pub fn as_slice(&self) -> &[ScanChain]
        ensures { chains_in result.now ≡ self.now }
    {
        self.chains.as_slice()
    }

    /// The chains in text order, to be kept elsewhere.
    pub fn into_vec(self) -> Vec<ScanChain>
        ensures { chains_in result.items ≡ self }
    {
        self.chains
    }

    /// The same chains once more, which share the names of their cells.
    pub fn share(&self, alloc: Global) -> Result<Chains, AllocError>
        ensures { IfOk result (λ chains. chains ≡ self.now) }
    {
        let chains = share_each(alloc, self.chains.as_slice())?;
        Ok(Chains { chains })
    }

    /// The signals at which chains end, in declared order.
    pub fn scan_outs(&self, alloc: Global, signals: &SignalTable) -> Result<SignalList, AllocError>
        ensures { IfOk result (λ outs. (names : Names) → signals.now ≡ table_of names
            → outs ≡ scan_outs names self.now) }
    {
        let outs = ends_among(alloc, self.chains.as_slice(), signals.count())?;
        Ok(SignalList::from_vec(outs))
    }

    /// No command calls it: the names of the chain that ends at a signal and of its cell that a mark means, where there is such a
    /// cell. A mark is 1 more than the index of a scan character, from 0: the first to leave a chain is that of its last cell.
    pub fn cell_of(&self, signal: u16, mark: u32) -> Option<(&Text, &Text)>
        ensures { option_map by_names result ≡ cell_of self.now signal mark }
    {
        match chain_at(self.chains.as_slice(), signal) {
            Some(chain) => cell_in(chain, mark),
            None => None,
        }
    }
}

/// A chain once more, which shares the names of its cells.
fn share_chain(alloc: Global, chain: &ScanChain) -> Result<ScanChain, AllocError>
    ensures { IfOk result (λ c. chain_in c ≡ chain_in chain.now) }
{
    Ok(ScanChain {
        name: Text::from_slice(alloc, chain.name.as_slice())?,
        scan_out: chain.scan_out,
        length: chain.length,
        cells: chain.cells.share()?,
    })
}

/// Chains once more.
fn share_each(alloc: Global, chains: &[ScanChain]) -> Result<Vec<ScanChain>, AllocError>
    ensures { IfOk result (λ shared. chains_in shared.items ≡ chains_in chains.now) }
{
    let mut shared = Vec::with_capacity(alloc, chains.len())?;
    for chain in chains {
        shared.push(share_chain(alloc, chain)?)?;
    }
    Ok(shared)
}

/// The chain that ends at a signal.
fn chain_at(chains: &[ScanChain], signal: u16) -> Option<&ScanChain>
    ensures { option_map chain_behind result ≡ chain_at (chains_in chains.now) signal }
{
    for chain in chains {
        if chain.scan_out == signal {
            return Some(chain);
        }
    }
    None
}

/// The names of a chain and its cell that a mark means.
fn cell_in(chain: &ScanChain, mark: u32) -> Option<(&Text, &Text)>
    ensures { option_map by_names result ≡ cell_in mark (chain_in chain.now) }
{
    let cell = chain.cells.marked(chain.length, mark)?;
    Some((&chain.name, cell))
}
