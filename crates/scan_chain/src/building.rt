//! The scan chains of an executive, or the first fault of their declarations (IEEE 1450-1999, clause 20).

ghost use Rattle.std.specs.Prelude.{◌≡◌, ◌⊎◌, ◌<◌, None, Some, length, slice_get, IfOk, IfErr, MatchResult};
ghost use Rattle.stil_ast.specs.Meaning.Signals.{names_of};
ghost use Rattle.stil_ast.specs.Meaning.Bursts.{exec_scans};
ghost use Rattle.stil_ast.specs.Meaning.Executive.{chain_list};
ghost use Rattle.stil_ast.specs.declared.executive.ExecDecl.{ExecDecl};
ghost use Rattle.stil_ast.specs.declared.fault.StilFault.{StilFault};
ghost use Rattle.answers.specs.Answers.{Finds};
ghost use Rattle.answers.specs.declared.short.Short.TheVariants as refusal;
ghost use Rattle.signal_groups.specs.Table.{table_of};
ghost use Rattle.scan_chain.specs.Fault.{chain_list_fault, IsChainFault, Scans};

use crate::chain::Chains;
use crate::checking::check_chains;
use crate::found::{chains_named, exec_scans};
use crate::making::chains_of;
use signal_groups::SignalTable;
use std::alloc::Global;
use stil_ast::{Blocks, StilRefusal};

/// The chains of the ScanStructures that the executive with this index uses: those that its burst names, else the
/// unnamed ones. A chain without ScanOut is left away, and of two with one ScanOut the first counts. Without ScanLength
/// the length of a chain is the number of its cells.
///
/// The first fault in text order refuses: Twice for the name of a chain, and then, in its statements, UnknownName for a
/// ScanIn or ScanOut whose name isn't the text of a signal, and OutOfRange for a cell with too long a text.
pub fn build(
    alloc: Global,
    blocks: &Blocks,
    exec: usize,
    signals: &SignalTable,
) -> Result<Chains, StilRefusal>
    requires executive { exec < length blocks.now.executives }
    requires signals { signals.now ≡ table_of (names_of blocks.now) }
    ensures found { (e : ExecDecl) → slice_get blocks.now.executives exec ≡ Some e
        → IfOk result (λ chains. (chain_list_fault blocks.now e ≡ None) × (chains ≡ chain_list blocks.now e)) }
    ensures only { (e : ExecDecl) → slice_get blocks.now.executives exec ≡ Some e
        → chain_list_fault blocks.now e ≡ None
        → MatchResult result (λ chains. chains ≡ chain_list blocks.now e) (λ r. r ≡ refusal.NoMemory) }
    ensures fault { (e : ExecDecl) → slice_get blocks.now.executives exec ≡ Some e
        → IfErr result (λ r. (r ≡ refusal.NoMemory) ⊎ IsChainFault blocks.now e r) }
    ensures refused { (e : ExecDecl) (f : StilFault) → slice_get blocks.now.executives exec ≡ Some e
        → chain_list_fault blocks.now e ≡ Some f
        → MatchResult result (λ _. ⊥) (λ r. (r ≡ refusal.NoMemory) ⊎ (r ≡ refusal.Fault f)) }
{
    built(alloc, blocks, exec, signals)
}

/// The same in one clause.
fn built(
    alloc: Global,
    blocks: &Blocks,
    exec: usize,
    signals: &SignalTable,
) -> Result<Chains, StilRefusal>
    requires executive { exec < length blocks.now.executives }
    requires signals { signals.now ≡ table_of (names_of blocks.now) }
    ensures { (e : ExecDecl) → slice_get blocks.now.executives exec ≡ Some e
        → Finds (chain_list_fault blocks.now e) (λ chains. chains ≡ chain_list blocks.now e) result }
{
    build_named(alloc, blocks, scans_of(blocks, exec), signals)
}

/// The name of the ScanStructures that the executive with this index uses; it is empty where they are the unnamed ones.
pub fn scans_of(blocks: &Blocks, exec: usize) -> &[u8]
    requires { exec < length blocks.now.executives }
    ensures { (e : ExecDecl) → slice_get blocks.now.executives exec ≡ Some e
        → result.now ≡ exec_scans blocks.now e }
{
    exec_scans(blocks, &blocks.executives.as_slice()[exec])
}

/// The chains of the ScanStructures of a name, or the first fault of their declarations, as `build` has them for each
/// executive that uses these.
pub fn build_named(
    alloc: Global,
    blocks: &Blocks,
    block: &[u8],
    signals: &SignalTable,
) -> Result<Chains, StilRefusal>
    requires { signals.now ≡ table_of (names_of blocks.now) }
    ensures { Scans blocks.now block.now result }
{
    let decls = chains_named(alloc, blocks.scans.as_slice(), block)?;
    match check_chains(alloc, signals, block, decls.as_slice()) {
        Ok(()) => {
            let chains = chains_of(alloc, signals, decls.as_slice())?;
            Ok(Chains { chains })
        }
        Err(refusal) => Err(refusal),
    }
}
