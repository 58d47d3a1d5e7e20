//! `merge`: the datalog of a plan, of those of its parts.

ghost use Rattle.std.specs.Prelude.{◌≡◌, ◌≤◌, ◌<◌, ℕ, List, length, MatchResult};
ghost use Rattle.tester_types.specs.Outside.{Loads};
ghost use Rattle.text_bytes.specs.Limits.{most_plan_sites};
ghost use Rattle.plan_rows.specs.Plan.{IsPlan};
ghost use Rattle.plan_parts.specs.Cut.{sites_with_dies};
ghost use Rattle.log_parts.specs.Merged.{names_in};
ghost use Rattle.log_parts.specs.Slices.{IsSliced};
ghost use Rattle.log_parts.specs.Step.{IsFaultOf};
ghost use Rattle.text_bytes.specs.Limits.{most_parts};
ghost use Rattle.lot_parts.specs.Words.{words_seen};
ghost use Rattle.lot_parts.specs.Files.{texts_seen};
ghost use Rattle.lot_parts.specs.Endings.{AnswersAs};
ghost use Rattle.lot_parts.specs.Merging.{AreSliced, IsTextRefused, MergeWants};

use crate::load::{load_parts, read_plan};
use crate::names::names_in;
use crate::outcome::{Outcome, out_of_memory};
use crate::refusal::{PartRefusal, part_refusal, put_part_refusal};
use crate::words::Part;
use log_parts::{PartLog, put_merged};
use part_lines::LineFault;
use plan_parts::Sites;
use plan_rows::PlanRows;
use std::alloc::Global;
use tester_types::{Shelf, Sink};
use tool_inputs::{Refusal, Status};

/// Reads the datalog of a part.
fn read_log<'a>(
    alloc: Global,
    rows: &PlanRows,
    sites: &Sites,
    of: Part,
    text: &'a [u8],
) -> Result<PartLog<'a>, LineFault>
    requires plan { (bytes : List ℕ) × IsPlan bytes rows.now }
    requires sites { sites.now ≡ sites_with_dies rows.now }
    requires few { length sites.now ≤ most_plan_sites }
    requires part { of.part < of.parts }
    ensures { MatchResult result (IsSliced (names_in of.parts of.part rows.now) text.now)
        (IsFaultOf (names_in of.parts of.part rows.now) text.now) }
{
    let names = match names_in(alloc, rows, sites, of) {
        Ok(names) => names,
        Err(_) => return Err(LineFault::NoMemory),
    };
    PartLog::read(alloc, names.as_slice(), text)
}

/// Reads the datalogs of parts, one after another.
fn read_logs<'a>(
    alloc: Global,
    rows: &PlanRows,
    sites: &Sites,
    files: &[String],
    texts: &'a [Vec<u8>],
) -> Result<Vec<PartLog<'a>>, PartRefusal>
    requires plan { (bytes : List ℕ) × IsPlan bytes rows.now }
    requires sites { sites.now ≡ sites_with_dies rows.now }
    requires few_sites { length sites.now ≤ most_plan_sites }
    requires few { length files.now ≤ most_parts }
    requires each { length files.now ≡ length texts.now }
    ensures { MatchResult result (λ logs. AreSliced rows.now (length files.now) 0 (texts_seen texts.now) logs.items)
        (IsTextRefused rows.now (words_seen files.now) (texts_seen texts.now)) }
{
    let mut logs = Vec::new(alloc);
    for (at, text) in texts.iter().enumerate() {
        let of = Part {
            parts: files.len() as u16,
            part: at as u16,
        };
        match read_log(alloc, rows, sites, of, text.as_slice()) {
            Ok(log) => match logs.push(log) {
                Ok(()) => {}
                Err(_) => return Err(PartRefusal::Of(Refusal::NoMemory)),
            },
            Err(fault) => return Err(part_refusal(alloc, files[at].as_str(), fault)),
        }
    }
    Ok(logs)
}

/// Reads a plan and the datalogs of all its parts, and prints the datalog of the plan, or the line of the first refusal.
pub(crate) fn merge<F: Shelf, K: Sink>(
    alloc: Global,
    plan: &str,
    files: &[String],
    shelf: &mut F,
    out: &mut K,
) -> Outcome
    requires some { 0 < length files.now }
    requires few { length files.now ≤ most_parts }
    ensures answers { AnswersAs (MergeWants (F.told shelf.old) (F.faults shelf.old) (F.faults shelf.new) plan.now
        (words_seen files.now)) (K.told out.old) (K.faults out.old) result (K.told out.new) (K.faults out.new) }
    ensures loads { Loads (F.told shelf.old) (F.faults shelf.old) (F.told shelf.new) (F.faults shelf.new) }
{
    let rows = match read_plan(alloc, plan, shelf) {
        Ok(rows) => rows,
        Err(refusal) => return put_part_refusal(out, &PartRefusal::Of(refusal)),
    };
    let Ok(sites) = Sites::of(alloc, &rows) else {
        return out_of_memory(out);
    };
    let texts = match load_parts(alloc, files, shelf) {
        Ok(texts) => texts,
        Err(refusal) => return put_part_refusal(out, &PartRefusal::Of(refusal)),
    };
    let logs = match read_logs(alloc, &rows, &sites, files, texts.as_slice()) {
        Ok(logs) => logs,
        Err(refusal) => return put_part_refusal(out, &refusal),
    };
    match put_merged(out, sites.as_slice(), logs.as_slice()) {
        Ok(()) => Outcome::Ended(Status::Done),
        Err(_) => Outcome::Ended(Status::WriteFault),
    }
}
