//! The scan chains of an executive of a code.

ghost use Rattle.std.specs.Prelude.{◌≡◌, true, IfOk, map};
ghost use Rattle.std.specs.List.{list_all};
ghost use Rattle.scan_chain.specs.Held.{chain_in, chains_in};
ghost use Rattle.scan_chain.specs.Short.{is_short};
ghost use Rattle.cycle_comp.specs.Compiled.{chain_of};

use packed_code::{CodeChain, CodeChainList};
use scan_chain::{Chains, ScanChain};
use std::alloc::{AllocError, Global};

/// A chain of the code, from that of an executive.
fn code_chain(chain: ScanChain) -> CodeChain
    requires { is_short (chain_in chain) ≡ true }
    ensures { result ≡ chain_of (chain_in chain) }
{
    CodeChain {
        name: chain.name,
        out: chain.scan_out,
        length: chain.length as u32,
        cells: chain.cells,
    }
}

/// The same of several chains.
fn code_each(alloc: Global, chains: Vec<ScanChain>) -> Result<CodeChainList, AllocError>
    requires { list_all is_short (chains_in chains.items) ≡ true }
    ensures { IfOk result (λ list. list ≡ map chain_of (chains_in chains.items)) }
{
    let mut list = Vec::with_capacity(alloc, chains.len())?;
    for chain in chains {
        list.push(code_chain(chain))?;
    }
    Ok(CodeChainList::from_vec(list))
}

/// The chains of the code, from those of an executive.
pub(crate) fn code_chains(alloc: Global, chains: Chains) -> Result<CodeChainList, AllocError>
    requires { list_all is_short chains ≡ true }
    ensures { IfOk result (λ list. list ≡ map chain_of chains) }
{
    code_each(alloc, chains.into_vec())
}
