//! Which chains an executive has (IEEE 1450-1999, clauses 16, 17 and 20).

ghost use Rattle.std.specs.Prelude.{◌≡◌, ◌++◌, find, IfOk, OnOk};
ghost use Rattle.std.specs.Option.{option_copied};
ghost use Rattle.text_bytes.specs.Texts.{behind};
ghost use Rattle.stil_ast.specs.Data.Texts.{same};
ghost use Rattle.stil_ast.specs.Meaning.Bursts.{scans_name, exec_scans};
ghost use Rattle.stil_ast.specs.Meaning.Chains.{chains_named};
ghost use Rattle.stil_ast.specs.Data.BlockForms.{is_scans_word};
ghost use Rattle.stil_ast.specs.declared.executive.Burst.{Burst};

use std::alloc::{AllocError, Global};
use stil_ast::{Blocks, Burst, BurstItem, BurstWord, ChainDecl, ExecDecl, ScanBlock};

/// The burst of a name.
fn burst_named<'a>(bursts: &'a [Burst], name: &[u8]) -> Option<&'a Burst>
    ensures { option_copied result ≡ find (λ (b : Burst). same b.name name.now) bursts.now }
{
    for burst in bursts {
        if burst.name.as_slice() == name {
            return Some(burst);
        }
    }
    None
}

/// Whether a burst's item names ScanStructures.
fn is_scans(word: BurstWord) -> bool
    ensures { result ≡ is_scans_word word }
{
    matches!(word, BurstWord::ScanStructures)
}

/// The name of the ScanStructures of a burst; it is empty where they are the unnamed ones.
fn scans_name(items: &[BurstItem]) -> &[u8]
    ensures { result.now ≡ scans_name items.now }
{
    for item in items {
        if is_scans(item.word) {
            return item.name.as_slice();
        }
    }
    &[]
}

/// The name of the ScanStructures of an executive; it is empty where they are the unnamed ones.
pub(crate) fn exec_scans<'a>(blocks: &'a Blocks, exec: &ExecDecl) -> &'a [u8]
    ensures { result.now ≡ exec_scans blocks.now exec.now }
{
    match burst_named(blocks.bursts.as_slice(), exec.burst.name.as_slice()) {
        Some(burst) => scans_name(burst.items.as_slice()),
        None => &[],
    }
}

/// Puts the chains of a block behind the others.
fn add_block<'a>(found: &mut Vec<&'a ChainDecl>, block: &'a ScanBlock) -> Result<(), AllocError>
    ensures { OnOk result (behind found.new.items ≡ behind found.old.items ++ block.now.chains) }
{
    for decl in block.chains.as_slice() {
        found.push(decl)?;
    }
    Ok(())
}

/// The chains of all blocks of a name.
pub(crate) fn chains_named<'a>(
    alloc: Global,
    scans: &'a [ScanBlock],
    name: &[u8],
) -> Result<Vec<&'a ChainDecl>, AllocError>
    ensures { IfOk result (λ found. behind found.items ≡ chains_named scans.now name.now) }
{
    let mut found = Vec::new(alloc);
    for block in scans {
        if block.name.as_slice() == name {
            add_block(&mut found, block)?;
        }
    }
    Ok(found)
}
