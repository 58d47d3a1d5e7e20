//! The signals at which chains end.

ghost use Rattle.std.specs.Prelude.{◌≡◌, ◌<◌, ◌≤◌, ◌^◌, ◌++◌, ◌∷◌, ℕ, List, filter, IfOk, OnOk};
ghost use Rattle.text_bytes.specs.Limits.{most_signals};
ghost use Rattle.stil_ast.specs.Data.Texts.{upwards};
ghost use Rattle.scan_chain.specs.Held.{chains_in, is_end};

use crate::chain::ScanChain;
use std::alloc::{AllocError, Global};

/// Whether one of these chains ends at this signal.
pub(crate) fn is_end(chains: &[ScanChain], signal: u16) -> bool
    ensures { result ≡ is_end (chains_in chains.now) signal }
{
    for chain in chains {
        if chain.scan_out == signal {
            return true;
        }
    }
    false
}

/// Puts a signal behind the others, if one of these chains ends at it.
fn add_end(chains: &[ScanChain], ends: &mut Vec<u16>, signal: u16) -> Result<(), AllocError>
    ensures { OnOk result ((rest : List ℕ) → ends.new.items ++ filter (is_end (chains_in chains.now)) rest
        ≡ ends.old.items ++ filter (is_end (chains_in chains.now)) (signal ∷ rest)) }
{
    if is_end(chains, signal) {
        ends.push(signal)?;
    }
    Ok(())
}

/// The signals at which chains end, in order, among so many signals.
pub(crate) fn ends_among(
    alloc: Global,
    chains: &[ScanChain],
    count: usize,
) -> Result<Vec<u16>, AllocError>
    requires { count ≤ most_signals }
    ensures { IfOk result (λ ends. ends.items ≡ filter (is_end (chains_in chains.now)) (upwards 0 count)) }
{
    let mut ends = Vec::new(alloc);
    for signal in 0..count {
        add_end(chains, &mut ends, signal as u16)?;
    }
    Ok(ends)
}
