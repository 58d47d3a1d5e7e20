//! The blocks of a text by their names.

ghost use Rattle.std.specs.Prelude.{◌≡◌};
ghost use Rattle.std.specs.List.{list_any};
ghost use Rattle.stil_ast.specs.Data.Texts.{same};
ghost use Rattle.stil_ast.specs.Data.BlockForms.{is_macros_word, is_procedures_word};
ghost use Rattle.stil_ast.specs.Meaning.Bursts.{macros_name, procedures_name};
ghost use Rattle.stil_ast.specs.Faults.BurstFaults.{is_selector, is_timing};

use stil_ast::{Blocks, BurstItem, BurstWord};

/// Whether there is a Selector of this name.
pub(crate) fn is_selector(blocks: &Blocks, name: &[u8]) -> bool
    ensures { result ≡ is_selector blocks.now name.now }
{
    blocks
        .selectors
        .as_slice()
        .iter()
        .any(|selector| selector.name.as_slice() == name)
}

/// Whether there is a Timing of this name.
pub(crate) fn is_timing(blocks: &Blocks, name: &[u8]) -> bool
    ensures { result ≡ is_timing blocks.now name.now }
{
    blocks
        .timings
        .as_slice()
        .iter()
        .any(|timing| timing.name.as_slice() == name)
}

/// Whether a burst's item names MacroDefs.
fn is_macros(word: BurstWord) -> bool
    ensures { result ≡ is_macros_word word }
{
    matches!(word, BurstWord::MacroDefs)
}

/// Whether a burst's item names Procedures.
fn is_procedures(word: BurstWord) -> bool
    ensures { result ≡ is_procedures_word word }
{
    matches!(word, BurstWord::Procedures)
}

/// The name of the MacroDefs of a burst, or of those round it.
pub(crate) fn macros_name<'a>(items: &'a [BurstItem], round: &'a [u8]) -> &'a [u8]
    ensures { result.now ≡ macros_name items.now round.now }
{
    for item in items {
        if is_macros(item.word) {
            return item.name.as_slice();
        }
    }
    round
}

/// The name of the Procedures of a burst, or of those round it.
pub(crate) fn procedures_name<'a>(items: &'a [BurstItem], round: &'a [u8]) -> &'a [u8]
    ensures { result.now ≡ procedures_name items.now round.now }
{
    for item in items {
        if is_procedures(item.word) {
            return item.name.as_slice();
        }
    }
    round
}
