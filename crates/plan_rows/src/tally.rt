//! What the rows so far say of the lot and its dies.

ghost use Rattle.std.specs.Prelude.{◌≡◌, ◌+◌, ◌*◌, ◌<◌, ◌≤◌, ◌^◌, nat_lt, nat_le, ◌&&◌, [], length, All, slice_index_or, slice_set, option_map, OnOk, IfOk};
ghost use Rattle.std.specs.List.{position};
ghost use Rattle.std.specs.Str.{bytes_eq};
ghost use Rattle.text_bytes.specs.Limits.{most_plan_sites};
ghost use Rattle.text_bytes.specs.Texts.{key_texts, added};
ghost use Rattle.plan_rows.specs.Limits.{most_dies, most_kept};
ghost use Rattle.plan_rows.specs.Inside.{kept_names, IsTally, HasPlace, Notes};

use crate::row::{DieRow, LotRow, Row};
use indexmap::IndexSet;
use std::alloc::{AllocError, Global};
use text_bytes::MOST_PLAN_SITES;

/// The most dies of a plan.
const MOST_DIES: u64 = 4096;

/// The most kept fails of all tries of all dies.
const MOST_KEPT: u64 = 1_048_576;

/// The lot's own row, how many dies there are, and the names of those of each site, in order.
#[derive(Drop)]
pub(crate) struct DieTally {
    lot: LotRow,
    dies: u32,
    names: Vec<IndexSet<Vec<u8>>>,
}

/// Puts a name behind the others, unless it is one of them.
fn put_name(alloc: Global, names: &mut IndexSet<Vec<u8>>, name: &[u8]) -> Result<(), AllocError>
    ensures { OnOk result (key_texts names.new.keys ≡ added (key_texts names.old.keys) name.now) }
{
    let name = Vec::from_slice(alloc, name)?;
    names.insert(name)?;
    Ok(())
}

/// No names, for each site.
fn no_names(alloc: Global) -> Result<Vec<IndexSet<Vec<u8>>>, AllocError>
    ensures sites { IfOk result (λ names. length names.items ≡ most_plan_sites) }
    ensures none { IfOk result (λ names. All (λ s. s.keys ≡ []) names.items) }
{
    let mut names = Vec::new(alloc);
    for _ in 0..MOST_PLAN_SITES {
        names.push(IndexSet::new(alloc))?;
    }
    Ok(names)
}

impl DieTally {
    /// Before any row.
    pub(crate) fn new(alloc: Global) -> Result<DieTally, AllocError>
        ensures { IfOk result (λ t. IsTally t []) }
    {
        Ok(DieTally {
            lot: LotRow {
                batch: 0,
                tries: 0,
                keep: 0,
            },
            dies: 0,
            names: no_names(alloc)?,
        })
    }

    /// The place of a name among those of a site's dies.
    pub(crate) fn place_of(&self, site: u64, name: &[u8]) -> Option<usize>
        requires { site < length self.now.names.items }
        ensures { result ≡ position (bytes_eq name.now) (slice_index_or (kept_names self.now) site []) }
    {
        self.names[site as usize].get_index_of(name)
    }

    /// Whether a site has a die.
    pub(crate) fn has_die(&self, site: u64) -> bool
        requires { site < length self.now.names.items }
        ensures { result ≡ nat_lt 0 (length (slice_index_or (kept_names self.now) site [])) }
    {
        !self.names[site as usize].is_empty()
    }

    /// Whether one more die is within the limits of dies and of kept fails.
    pub(crate) fn has_room(&self) -> bool
        ensures { result ≡ (nat_le (self.now.dies + 1) most_dies
            && nat_le ((self.now.dies + 1) * (self.now.lot.tries * self.now.lot.keep)) most_kept) }
    {
        let tries = self.lot.tries;
        let keep = self.lot.keep;
        let dies = u64::from(self.dies) + 1;
        let kept = u64::from(tries) * u64::from(keep);
        dies <= MOST_DIES && dies * kept <= MOST_KEPT
    }

    fn add_die(&mut self, alloc: Global, die: &DieRow) -> Result<(), AllocError>
        requires site { die.now.site < length self.old.names.items }
        requires few { self.old.dies < most_dies }
        ensures lot { OnOk result (self.new.lot ≡ self.old.lot) }
        ensures dies { OnOk result (self.new.dies ≡ self.old.dies + 1) }
        ensures names { OnOk result (kept_names self.new
            ≡ slice_set (kept_names self.old) die.now.site
            (added (slice_index_or (kept_names self.old) die.now.site []) die.now.name)) }
    {
        put_name(
            alloc,
            &mut self.names[usize::from(die.site)],
            die.name.as_slice(),
        )?;
        self.dies += 1;
        Ok(())
    }

    /// Adds what a row says of the lot and its dies.
    pub(crate) fn note(&mut self, alloc: Global, row: &Row) -> Result<(), AllocError>
        requires { HasPlace self.old row.now }
        ensures { OnOk result (Notes self.old self.new row.now) }
    {
        match row {
            Row::Lot(lot) => {
                self.lot = *lot;
                Ok(())
            }
            Row::Die(die) => self.add_die(alloc, die),
            Row::Clock(_)
            | Row::Bind(_)
            | Row::Fault(_)
            | Row::Stop(_)
            | Row::Bin(_)
            | Row::Skew(_) => Ok(()),
        }
    }
}
