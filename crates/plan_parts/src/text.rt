//! The plan of a part.

ghost use Rattle.std.specs.Prelude.{◌≡◌, ◌<◌, ◌≤◌, ◌⊎◌, List, IfOk, IfErr, MatchResult, length};
ghost use Rattle.text_bytes.specs.Limits.{most_bytes};
ghost use Rattle.plan_rows.specs.Plan.{IsFault, IsPlan};
ghost use Rattle.plan_rows.specs.declared.row.Row.{Row};
ghost use Rattle.plan_rows.specs.declared.fault.PlanFault.{PlanFault};
ghost use Rattle.plan_rows.specs.declared.fault.PlanFault.TheVariants.{NoMemory};
ghost use Rattle.plan_parts.specs.Cut.{sites_with_dies};
ghost use Rattle.plan_parts.specs.Inside.{Makes};
ghost use Rattle.plan_parts.specs.PartText.{IsPartText};

use crate::record::{finished, put_record};
use crate::sites::Sites;
use csv::{ReaderBuilder, WriterBuilder};
use plan_rows::{PlanFault, Row, read_rows};
use std::alloc::Global;

/// The records of a part, of all records of a plan and their rows.
fn part_records(
    alloc: Global,
    bytes: &[u8],
    rows: &[Row],
    sites: &Sites,
    parts: u16,
    part: u16,
) -> Result<Vec<u8>, PlanFault>
    requires plan { IsPlan bytes.now rows.now }
    requires sites { sites.now ≡ sites_with_dies rows.now }
    requires some { 0 < parts }
    ensures { Makes (λ text. IsPartText parts part bytes.now rows.now text.items) result }
{
    let reader = ReaderBuilder::new()
        .has_headers(false)
        .flexible(true)
        .from_reader(alloc, bytes);
    let mut out = WriterBuilder::new().from_writer(Vec::new(alloc));
    let mut at = 0;
    for row in reader.into_byte_records() {
        let Ok(fields) = row else {
            return Err(PlanFault::NoMemory);
        };
        put_record(&mut out, sites, parts, part, &rows[at], &fields)?;
        at += 1;
    }
    finished(out)
}

/// The plan of a part, of so many parts of the plan that a text is, or the fault of the text.
///
/// Each record of the part stands as the plan has it, in the plan's order, but for the number of its site.
pub fn part_text(alloc: Global, bytes: &[u8], parts: u16, part: u16) -> Result<Vec<u8>, PlanFault>
    requires few { length bytes.now ≤ most_bytes }
    requires some { 0 < parts }
    requires part { part < parts }
    ensures found { IfOk result (λ text. (rows : List Row) × IsPartText parts part bytes.now rows text.items) }
    ensures only { (rows : List Row) → IsPlan bytes.now rows
        → MatchResult result (λ text. IsPartText parts part bytes.now rows text.items) (λ e. e ≡ NoMemory) }
    ensures fault { IfErr result (λ e. (e ≡ NoMemory) ⊎ IsFault bytes.now e) }
    ensures refused { (f : PlanFault) → IsFault bytes.now f
        → MatchResult result (λ _. ⊥) (λ e. (e ≡ NoMemory) ⊎ (e ≡ f)) }
{
    let rows = read_rows(alloc, bytes)?;
    let sites = Sites::of(alloc, &rows)?;
    part_records(alloc, bytes, rows.as_slice(), &sites, parts, part)
}
