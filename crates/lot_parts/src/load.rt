//! The files of a run: a plan, and the texts of parts.

ghost use Rattle.std.specs.Prelude.{◌≡◌, ◌++◌, ◌∷◌, [], OnOk, MatchResult};
ghost use Rattle.tester_types.specs.Outside.{Loads};
ghost use Rattle.plan_rows.specs.Rows.{AreKept};
ghost use Rattle.tool_inputs.specs.Inputs.{IsPlanFile, IsPlanRefused};
ghost use Rattle.lot_parts.specs.Words.{words_seen};
ghost use Rattle.lot_parts.specs.Files.{texts_seen, IsPartFile, ArePartFiles, IsUnloaded, AreUnloaded, AddsText};

use plan_rows::{PlanRows, read_rows};
use std::alloc::{AllocError, Global};
use tester_types::{Shelf, ShelfFault, Text};
use tool_inputs::{Refusal, load};

/// The most bytes that the text of a part may have: 2^40.
const MOST_PART: usize = 1 << 40;

/// Reads a plan.
pub(crate) fn read_plan<F: Shelf>(
    alloc: Global,
    plan: &str,
    shelf: &mut F,
) -> Result<PlanRows, Refusal>
    ensures reads { MatchResult result (λ rows. IsPlanFile (F.told shelf.old) plan.now rows × AreKept rows)
        (IsPlanRefused (F.told shelf.old) (F.faults shelf.old) (F.faults shelf.new) plan.now) }
    ensures loads { Loads (F.told shelf.old) (F.faults shelf.old) (F.told shelf.new) (F.faults shelf.new) }
{
    let bytes = load(alloc, plan, shelf)?;
    match read_rows(alloc, bytes.as_slice()) {
        Ok(rows) => Ok(rows),
        Err(fault) => Err(Refusal::Plan(fault)),
    }
}

/// Loads the text of a part.
pub(crate) fn load_part<F: Shelf>(
    alloc: Global,
    file: &str,
    shelf: &mut F,
) -> Result<Vec<u8>, Refusal>
    ensures reads { MatchResult result (λ bytes. IsPartFile (F.told shelf.old) file.now bytes.items)
        (IsUnloaded (F.told shelf.old) (F.faults shelf.old) (F.faults shelf.new) file.now) }
    ensures loads { Loads (F.told shelf.old) (F.faults shelf.old) (F.told shelf.new) (F.faults shelf.new) }
{
    let Ok(name) = Vec::from_slice(alloc, file.as_bytes()) else {
        return Err(Refusal::NoMemory);
    };
    let name = Text::from_vec(name);
    match shelf.load(alloc, file, MOST_PART) {
        Ok(bytes) => Ok(bytes),
        Err(ShelfFault::Failed) => Err(Refusal::ReadFault(name)),
        Err(ShelfFault::TooLong) => Err(Refusal::TooLong(name)),
        Err(ShelfFault::NoMemory) => Err(Refusal::NoMemory),
    }
}

/// Loads the texts of parts, one after another.
pub(crate) fn load_parts<F: Shelf>(
    alloc: Global,
    files: &[String],
    shelf: &mut F,
) -> Result<Vec<Vec<u8>>, Refusal>
    ensures reads { MatchResult result
        (λ texts. ArePartFiles (F.told shelf.old) (words_seen files.now) (texts_seen texts.items))
        (AreUnloaded (F.told shelf.old) (F.faults shelf.old) (F.faults shelf.new) (words_seen files.now)) }
    ensures loads { Loads (F.told shelf.old) (F.faults shelf.old) (F.told shelf.new) (F.faults shelf.new) }
{
    let mut texts = Vec::new(alloc);
    for file in files {
        add_part(alloc, file.as_str(), shelf, &mut texts)?;
    }
    Ok(texts)
}

/// Loads the text of one part more.
fn add_part<F: Shelf>(
    alloc: Global,
    file: &str,
    shelf: &mut F,
    texts: &mut Vec<Vec<u8>>,
) -> Result<(), Refusal>
    ensures reads { MatchResult result (λ _. AddsText (F.told shelf.old) file.now
        (texts_seen texts.old.items) (texts_seen texts.new.items))
        (IsUnloaded (F.told shelf.old) (F.faults shelf.old) (F.faults shelf.new) file.now) }
    ensures loads { Loads (F.told shelf.old) (F.faults shelf.old) (F.told shelf.new) (F.faults shelf.new) }
{
    let text = load_part(alloc, file, shelf)?;
    match push_text(text, texts) {
        Ok(()) => Ok(()),
        Err(_) => Err(Refusal::NoMemory),
    }
}

/// Adds a text to others.
fn push_text(text: Vec<u8>, texts: &mut Vec<Vec<u8>>) -> Result<(), AllocError>
    ensures { OnOk result (texts_seen texts.new.items ≡ texts_seen texts.old.items ++ text.items ∷ []) }
{
    texts.push(text)?;
    Ok(())
}
