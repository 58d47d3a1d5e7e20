//! Plans of so many sites with so many dies each, bound to the program.

use crate::sample::{bound, code_of};
use lot_plan::BoundPlan;
use std::alloc::Global;
use std::test::Fail;

/// Adds the row of a die.
fn add_row(text: &mut Vec<u8>, site: u8, die: u16) -> Result<(), Fail> {
    let mut digits = itoa::Buffer::new();
    text.extend_from_slice(b"die,")?;
    text.extend_from_slice(digits.format(site).as_bytes())?;
    text.extend_from_slice(b",d")?;
    text.extend_from_slice(digits.format(die).as_bytes())?;
    text.extend_from_slice(b",inv,,\n")?;
    Ok(())
}

/// The rows of a plan of so many dies at each of so many sites.
fn text_of(alloc: Global, sites: u8, dies: u16) -> Result<Vec<u8>, Fail> {
    let mut text = Vec::from_slice(alloc, b"lot,1,1,0,,\nclock,c,,,,\n")?;
    for site in 0..sites {
        for die in 0..dies {
            add_row(&mut text, site, die)?;
        }
    }
    Ok(text)
}

/// A plan of so many dies at each of so many sites, bound.
pub(crate) fn plan_of(alloc: Global, sites: u8, dies: u16) -> Result<BoundPlan, Fail> {
    let text = text_of(alloc, sites, dies)?;
    if text.len() > 1_000_000 {
        return Err(Fail::from("a short text"));
    }
    bound(alloc, &code_of(alloc)?, &text)
}
