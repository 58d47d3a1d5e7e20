//! The names of the dies of a part, site by site.

ghost use Rattle.std.specs.Prelude.{◌≡◌, ◌<◌, ◌≤◌, ◌∷◌, [], IfOk, IfSome, IfNone, length};
ghost use Rattle.text_bytes.specs.Limits.{most_plan_sites};
ghost use Rattle.plan_rows.specs.Judging.{names_at};
ghost use Rattle.plan_parts.specs.Cut.{sites_with_dies};
ghost use Rattle.log_parts.specs.Merged.{names_in};
ghost use Rattle.log_parts.specs.Slices.{lent, lent_sites};

use crate::words::Part;
use plan_parts::Sites;
use plan_rows::{PlanRows, Row};
use std::alloc::{AllocError, Global};

/// The name that a row gives a die of a site.
fn name_in(row: &Row, site: u8) -> Option<&[u8]>
    ensures found { IfSome result (λ name. names_at site (row.now ∷ []) ≡ name.now ∷ []) }
    ensures none { IfNone result (names_at site (row.now ∷ []) ≡ []) }
{
    match row {
        Row::Die(die) => {
            if die.site == site {
                Some(die.name.as_slice())
            } else {
                None
            }
        }
        Row::Lot(_)
        | Row::Clock(_)
        | Row::Bind(_)
        | Row::Fault(_)
        | Row::Stop(_)
        | Row::Bin(_)
        | Row::Skew(_) => None,
    }
}

/// The names of the dies of a site, in order.
fn names_at(alloc: Global, rows: &[Row], site: u8) -> Result<Vec<&[u8]>, AllocError>
    ensures { IfOk result (λ names. lent names.items ≡ names_at site rows.now) }
{
    let mut names = Vec::new(alloc);
    for row in rows {
        match name_in(row, site) {
            Some(name) => names.push(name)?,
            None => {}
        }
    }
    Ok(names)
}

/// The names of the dies of a part, site by site.
pub(crate) fn names_in<'a>(
    alloc: Global,
    rows: &'a PlanRows,
    sites: &Sites,
    of: Part,
) -> Result<Vec<Vec<&'a [u8]>>, AllocError>
    requires sites { sites.now ≡ sites_with_dies rows.now }
    requires few { length sites.now ≤ most_plan_sites }
    requires part { of.part < of.parts }
    ensures { IfOk result (λ names. lent_sites names.items ≡ names_in of.parts of.part rows.now) }
{
    let mut names = Vec::new(alloc);
    for number in 0..sites.in_part(of.parts, of.part) {
        let site = sites.at(of.parts, of.part, number as u8);
        let dies = names_at(alloc, rows.as_slice(), site)?;
        names.push(dies)?;
    }
    Ok(names)
}
