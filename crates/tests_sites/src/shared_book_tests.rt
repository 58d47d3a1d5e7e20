//! Books that threads share: of sixteen sites, and of none.

ghost use Rattle.std.specs.Prelude.{◌≡◌, ◌<◌, [], All, length};
ghost use Rattle.plan_rows.specs.Rows.{sites_of};
ghost use Rattle.floor_core.specs.Book.{planned};

use crate::many_dies::plan_of;
use floor_core::BookState;
use lot_book::{Book, ShareList, SiteShare};
use lot_plan::BoundPlan;
use std::alloc::Global;
use std::sync::Wait;
use std::test::Fail;
use std::thread::{Threads, for_each_mut};
use tester_types::{Items, NoMemory, Record};

/// Files a record of each die of a share's site.
fn file_all<R: Wait>(rt: &R, alloc: Global, plan: &BoundPlan, book: &Book, share: &mut SiteShare)
    requires book { share.old.book ≡ book.now }
    requires plan { book.now.places ≡ planned plan.now.rows }
    requires site { share.old.site < sites_of plan.now.rows }
    requires empty { share.old.records ≡ [] }
    ensures book { share.new.book ≡ share.old.book }
{
    let site = share.site();
    for die in 0..plan.dies(site) {
        let trials = Items::from_vec(Vec::new(alloc));
        book.file(rt, share, Record { site, die, trials });
    }
}

/// Files all that shares have to file, each in a thread of its own.
fn file_by_threads<R: Threads + Wait + Sync>(
    rt: &R,
    alloc: Global,
    plan: &BoundPlan,
    book: &Book,
    shares: &mut [SiteShare],
)
    requires book { All (λ share. share.book ≡ book.now) shares.old }
    requires plan { book.now.places ≡ planned plan.now.rows }
    requires site { All (λ share. share.site < sites_of plan.now.rows) shares.old }
    requires empty { All (λ share. share.records ≡ []) shares.old }
    ensures book { All (λ share. share.book ≡ book.now) shares.new }
    ensures all { length shares.new ≡ length shares.old }
{
    for_each_mut(
        rt,
        shares,
        16,
        &|_: usize, share: &mut SiteShare|
            requires book { share.now.book ≡ book.now }
            requires plan { book.now.places ≡ planned plan.now.rows }
            requires site { share.now.site < sites_of plan.now.rows }
            requires empty { share.now.records ≡ [] }
            ensures book { share.exit.now.book ≡ share.entry.now.book }
        { file_all(rt, alloc, plan, book, share) },
    );
}

/// The book of a plan, once each site's thread has filed a record of each die.
fn filed_by_threads<R: Threads + Wait + Sync>(
    rt: &R,
    alloc: Global,
    plan: &BoundPlan,
) -> Result<BookState, NoMemory> {
    let (book, list) = Book::new(alloc, plan)?;
    let ShareList { closer, shares } = list;
    let mut shares = shares.into_vec();
    file_by_threads(rt, alloc, plan, &book, shares.as_mut_slice());
    Ok(book.close(ShareList {
        closer,
        shares: Items::from_vec(shares),
    }))
}

/// Whether the records of a site are those of so many dies, in order.
fn has_all(book: &BookState, site: u8, dies: u16) -> bool {
    if usize::from(site) >= book.sites().len() {
        return false;
    }
    let records = book.records(site).as_slice();
    let mut entries = records.iter().enumerate();
    records.len() == usize::from(dies) && entries.all(|(die, entry)| usize::from(entry.die) == die)
}

#[test]
fn sixteen_threads_file_into_one_book(rt: HostRuntime) -> Result<(), Fail> {
    let plan = plan_of(rt.alloc(), 16, 256)?;
    let book = filed_by_threads(&rt, rt.alloc(), &plan)?;
    assert_eq!(rt; book.sites().len(), 16);
    for site in 0..16 {
        assert!(rt; has_all(&book, site, 256));
    }
    Ok(())
}

#[test]
fn a_book_may_have_no_site(rt: HostRuntime) -> Result<(), Fail> {
    let plan = plan_of(rt.alloc(), 0, 0)?;
    let book = filed_by_threads(&rt, rt.alloc(), &plan)?;
    assert_eq!(rt; book.sites().len(), 0);
    Ok(())
}
