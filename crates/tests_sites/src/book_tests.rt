//! A book of two sites.

use crate::many_dies::plan_of;
use floor_core::BookState;
use std::alloc::Global;
use std::test::Fail;
use tester_types::{Items, Record};

/// Files a record of a die, and says whether there was a place for it.
fn file_where_spare(alloc: Global, book: &mut BookState, site: u8, die: u16) -> bool {
    if usize::from(site) >= book.sites().len() || book.records(site).spare() == 0 {
        return false;
    }
    book.file_into(Record {
        site,
        die,
        trials: Items::from_vec(Vec::new(alloc)),
    });
    true
}

/// The dies of the records of a site, none where the book lacks the site.
fn dies_of(alloc: Global, book: &BookState, site: u8) -> Result<Vec<u16>, Fail> {
    let mut dies = Vec::new(alloc);
    if usize::from(site) < book.sites().len() {
        for entry in book.records(site).as_slice() {
            dies.push(entry.die)?;
        }
    }
    Ok(dies)
}

#[test]
fn a_site_has_a_place_for_each_die(rt: HostRuntime) -> Result<(), Fail> {
    let mut book = BookState::new(rt.alloc(), &plan_of(rt.alloc(), 2, 2)?)?;
    for (site, die, is_filed) in [(1, 0, true), (0, 0, true), (1, 1, true), (1, 2, false)] {
        assert!(rt; file_where_spare(rt.alloc(), &mut book, site, die) == is_filed);
    }
    assert!(rt; dies_of(rt.alloc(), &book, 1)?.as_slice() == [0, 1].as_slice());
    Ok(())
}
