//! Eight events at two sites, one after another: a stop that is asked for, polls, and records that are filed.

ghost use Rattle.std.specs.Prelude.{◌≡◌, false, None, IfOk, OnOk};
ghost use Rattle.die_sim.specs.Socket.{failing_told};
ghost use Rattle.site_run.specs.Site.{IsSiteOf};

use crate::sample::{Outcome, bound, code_of, outcomes};
use die_sim::FailingSocket;
use floor_core::BookState;
use lot_plan::BoundPlan;
use pattern_mem::PatternMem;
use site_run::Site;
use std::alloc::Global;
use std::sync::Wait;
use std::test::Fail;
use tester_types::{By, Record, Verdict};

/// A plan with a die at each of two sites, whose ten cycles are two batches.
const PLAN: &[u8] = b"lot,5,1,3,,\nclock,c,,,,\ndie,0,d,inv,,\ndie,1,e,inv,,\n";

/// A site with what it stands on, how often it was asked to stop, and the record that wasn't filed yet.
#[derive(Drop)]
struct Post {
    mem: PatternMem,
    plan: BoundPlan,
    site: Site,
    socket: FailingSocket,
    asks: u64,
    waiting: Option<Record>,
}

/// A site of the plan before any event.
fn post_at(alloc: Global, number: u8) -> Result<Post, Fail>
    ensures is { IfOk result (λ post. IsSiteOf post.mem post.plan (failing_told post.socket) post.site) }
    ensures taken { IfOk result (λ post. post.site.waiting ≡ None) }
    ensures spent { IfOk result (λ post. post.site.spent ≡ false) }
{
    let code = code_of(alloc)?;
    let plan = bound(alloc, &code, PLAN)?;
    if number >= plan.sites() {
        return Err("there is such a site".into());
    }
    let (mem, passes) = PatternMem::new(alloc, code, 4, 1)?;
    let Some(pass) = passes.into_vec().pop() else {
        return Err("there is a pass".into());
    };
    let site = Site::start(alloc, &mem, pass, &plan, number)?;
    Ok(Post {
        mem,
        plan,
        site,
        socket: FailingSocket::new(alloc, 0),
        asks: 0,
        waiting: None,
    })
}

/// Polls a site, which rests while a record waits and once it is done.
fn poll<R: Wait>(rt: &R, post: &mut Post) -> Result<(), Fail>
    requires is { IsSiteOf post.old.mem post.old.plan (failing_told post.old.socket) post.old.site }
    requires taken { post.old.site.waiting ≡ None }
    requires spent { post.old.site.spent ≡ false }
    ensures is { OnOk result (IsSiteOf post.new.mem post.new.plan (failing_told post.new.socket) post.new.site) }
    ensures taken { OnOk result (post.new.site.waiting ≡ None) }
    ensures spent { OnOk result (post.new.site.spent ≡ false) }
{
    if post.waiting.is_some() || post.site.done() {
        return Ok(());
    }
    post.site
        .batch(rt, &post.mem, &post.plan, &mut post.socket, post.asks)?;
    post.waiting = post.site.take();
    Ok(())
}

/// Files the record of a site that waits, if one does.
fn file(book: &mut BookState, waiting: &mut Option<Record>) -> Result<(), Fail> {
    let Some(entry) = waiting.take() else {
        return Ok(());
    };
    let site = entry.site;
    if usize::from(site) >= book.sites().len() || book.records(site).spare() == 0 {
        return Err("there is a place for the record".into());
    }
    book.file_into(entry);
    Ok(())
}

/// How many records the book has of a site; none where it lacks the site.
fn filed(book: &BookState, site: u8) -> usize {
    if usize::from(site) < book.sites().len() {
        book.records(site).as_slice().len()
    } else {
        0
    }
}

/// Whether the book has one record of a site, with one try that came to this.
fn has_filed(alloc: Global, book: &BookState, site: u8, outcome: Outcome) -> Result<bool, Fail> {
    if usize::from(site) >= book.sites().len() {
        return Ok(false);
    }
    let list = outcomes(alloc, book.records(site).as_slice())?;
    Ok(list.as_slice() == [outcome].as_slice())
}

#[test]
fn eight_events_file_a_record_of_each_site(rt: HostRuntime) -> Result<(), Fail> {
    let mut zero = post_at(rt.alloc(), 0)?;
    let mut one = post_at(rt.alloc(), 1)?;
    let mut book = BookState::new(rt.alloc(), &zero.plan)?;
    poll(&rt, &mut zero)?;
    one.asks = 1;
    poll(&rt, &mut one)?;
    file(&mut book, &mut zero.waiting)?;
    assert!(rt; filed(&book, 0) == 0);
    poll(&rt, &mut zero)?;
    file(&mut book, &mut zero.waiting)?;
    assert!(rt; (filed(&book, 0), filed(&book, 1)) == (1, 0));
    file(&mut book, &mut one.waiting)?;
    poll(&rt, &mut one)?;
    assert!(rt; one.waiting.is_none());
    assert!(rt; has_filed(rt.alloc(), &book, 0, (1, 10, 0, Verdict::Pass))?);
    assert!(rt;
        has_filed(
            rt.alloc(),
            &book,
            1,
            (1, 0, 0, Verdict::Stopped(0, By::Desk(1)))
        )?
    );
    Ok(())
}
