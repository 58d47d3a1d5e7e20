//! The work of one site, from its first touchdown to its last.

ghost use Rattle.std.specs.Prelude.{◌≡◌, ◌<◌, ◌≤◌, true, false, ◌++◌, OnOk, None, IfSome, length, nat_le, slice_index};
ghost use Rattle.std.specs.Option.{option_to_list};
ghost use Rattle.plan_rows.specs.Rows.{sites_of, dies_at};
ghost use Rattle.site_meaning.specs.Part.{IsPart, part_of};
ghost use Rattle.floor_core.specs.Book.{planned};
ghost use Rattle.lot_book.specs.Shares.{new_share};
ghost use Rattle.site_run.specs.Site.{seat_of, IsSiteOf};
ghost use Rattle.tester_run.specs.Work.{IsWork};
ghost use Rattle.tester_run.specs.Turn.{IsReady, IsTurn};

use die_sim::{Socket, SocketBox};
use lot_book::{Book, SiteShare};
use lot_plan::BoundPlan;
use pattern_mem::{PatternMem, PoolPass};
use site_run::{Site, SiteFault};
use std::alloc::Global;
use std::sync::Wait;
use std::thread::Threads;
use stop_board::{Board, SiteSeat};
use tester_types::Gate;

/// Only tests call it: does the whole work of a share's site. In turn it passes the gate, polls the seat, runs a batch, and
/// files the record of a touchdown that has ended, until the site is done. At its end no die is loaded and the seat finishes,
/// after a fault too. It may wait at the gate, and for the turns of the memory and the book.
pub fn site_work<R: Threads + Wait + Sync, G: Gate>(
    rt: &R,
    alloc: Global,
    mem: &PatternMem,
    pass: PoolPass,
    plan: &BoundPlan,
    book: &Book,
    share: &mut SiteShare,
    board: &Board,
    seat: &mut SiteSeat,
    socket: &mut SocketBox,
    gate: &G,
) -> Result<(), SiteFault>
    requires one_program { plan.now.program ≡ mem.now.code }
    requires pass { pass ≡ mem.now }
    requires book { book.now.places ≡ planned plan.now.rows }
    requires share { share.old ≡ new_share book.now share.old.site }
    requires site { share.old.site < sites_of plan.now.rows }
    requires board { seat.old.board ≡ board.now }
    requires seat { seat.old.site ≡ share.old.site }
    requires once { seat.old.finished ≡ false }
    ensures work { OnOk result (IsWork (part_of plan.now share.old.site) seat.old seat.new
        (⟦<SocketBox as Socket>⟧.told socket.old) (⟦<SocketBox as Socket>⟧.told socket.new) share.new.records) }
    ensures unloaded { (⟦<SocketBox as Socket>⟧.told socket.new).loaded ≡ None }
    ensures share { share.new ≡ record share.old { records = share.new.records } }
    ensures seat { seat.new ≡ record seat.old { seen = seat.new.seen; polls = seat.new.polls; finished = true } }
    ensures later { seat.old.seen ≤ seat.new.seen }
    ensures count { (⟦<SocketBox as Socket>⟧.told socket.old).count ≤ (⟦<SocketBox as Socket>⟧.told socket.new).count }
{
    work_at(
        rt, alloc, mem, pass, plan, book, share, board, seat, socket, gate,
    )
}

/// The work of a site at a socket of any kind: it runs the site until it is done or memory runs out, leaves no die in its
/// socket, and finishes the seat.
pub(crate) fn work_at<R: Threads + Wait + Sync, K: Socket, G: Gate>(
    rt: &R,
    alloc: Global,
    mem: &PatternMem,
    pass: PoolPass,
    plan: &BoundPlan,
    book: &Book,
    share: &mut SiteShare,
    board: &Board,
    seat: &mut SiteSeat,
    socket: &mut K,
    gate: &G,
) -> Result<(), SiteFault>
    requires one_program { plan.now.program ≡ mem.now.code }
    requires pass { pass ≡ mem.now }
    requires book { book.now.places ≡ planned plan.now.rows }
    requires share { share.old ≡ new_share book.now share.old.site }
    requires site { share.old.site < sites_of plan.now.rows }
    requires board { seat.old.board ≡ board.now }
    requires once { seat.old.finished ≡ false }
    ensures work { OnOk result (IsWork (part_of plan.now share.old.site) seat.old seat.new
        (K.told socket.old) (K.told socket.new) share.new.records) }
    ensures unloaded { (K.told socket.new).loaded ≡ None }
    ensures share { share.new ≡ record share.old { records = share.new.records } }
    ensures seat { seat.new ≡ record seat.old { seen = seat.new.seen; polls = seat.new.polls; finished = true } }
    ensures later { seat.old.seen ≤ seat.new.seen }
    ensures count { (K.told socket.old).count ≤ (K.told socket.new).count }
{
    let done = work(
        rt, alloc, mem, pass, plan, book, share, board, seat, socket, gate,
    );
    socket.unload();
    seat.finish(board);
    done
}

/// Runs a site until it is done.
fn work<R: Threads + Wait + Sync, K: Socket, G: Gate>(
    rt: &R,
    alloc: Global,
    mem: &PatternMem,
    pass: PoolPass,
    plan: &BoundPlan,
    book: &Book,
    share: &mut SiteShare,
    board: &Board,
    seat: &mut SiteSeat,
    socket: &mut K,
    gate: &G,
) -> Result<(), SiteFault>
    requires one_program { plan.now.program ≡ mem.now.code }
    requires pass { pass ≡ mem.now }
    requires book { book.now.places ≡ planned plan.now.rows }
    requires share { share.old ≡ new_share book.now share.old.site }
    requires site { share.old.site < sites_of plan.now.rows }
    requires board { seat.old.board ≡ board.now }
    ensures work { OnOk result (IsWork (part_of plan.now share.old.site) seat.old seat.new
        (K.told socket.old) (K.told socket.new) share.new.records) }
    ensures share { share.new ≡ record share.old { records = share.new.records } }
    ensures seat { seat.new ≡ record seat.old { seen = seat.new.seen; polls = seat.new.polls } }
    ensures later { seat.old.seen ≤ seat.new.seen }
    ensures count { (K.told socket.old).count ≤ (K.told socket.new).count }
{
    let _sites = plan.sites();
    let _signals = mem.code().signals();
    let number = share.site();
    let mut site = Site::start(alloc, mem, pass, plan, number)?;
    let mut batch: u64 = 0;
    for _ in rt.forever() {
        if is_done(&site) {
            return Ok(());
        }
        gate.pass(rt, number, batch);
        turn(rt, mem, plan, book, share, board, seat, socket, &mut site)?;
        batch = batch.wrapping_add(1);
    }
    unreachable!()
}

/// Whether each die's touchdown has ended.
fn is_done(site: &Site) -> bool
    ensures { result ≡ nat_le site.now.dies site.now.die }
{
    site.done()
}

/// One turn of a site: polls its seat, runs a batch, and files what waits.
fn turn<R: Wait, K: Socket>(
    rt: &R,
    mem: &PatternMem,
    plan: &BoundPlan,
    book: &Book,
    share: &mut SiteShare,
    board: &Board,
    seat: &mut SiteSeat,
    socket: &mut K,
    site: &mut Site,
) -> Result<(), SiteFault>
    requires part { IsPart (part_of plan.now site.old.site) }
    requires is { IsSiteOf mem.now plan.now (K.told socket.old) site.old }
    requires spent { site.old.spent ≡ false }
    requires ready { IsReady (part_of plan.now site.old.site) (seat_of seat.old.seen (K.told socket.old) site.old)
        (length share.old.records) }
    requires more { site.old.die < length (dies_at site.old.site plan.now.rows) }
    requires book { share.old.book ≡ book.now }
    requires places { book.now.places ≡ planned plan.now.rows }
    requires share { share.old.site ≡ site.old.site }
    requires board { seat.old.board ≡ board.now }
    ensures is { OnOk result (IsSiteOf mem.now plan.now (K.told socket.new) site.new) }
    ensures spent { OnOk result (site.new.spent ≡ false) }
    ensures turned { OnOk result (IsTurn (part_of plan.now site.old.site)
        (seat_of seat.old.seen (K.told socket.old) site.old) (seat_of seat.new.seen (K.told socket.new) site.new)
        seat.old seat.new (K.told socket.old) (K.told socket.new) share.old.records share.new.records) }
    ensures share { share.new ≡ record share.old { records = share.new.records } }
    ensures seat { seat.new ≡ record seat.old { seen = seat.new.seen; polls = seat.new.polls } }
    ensures later { seat.old.seen ≤ seat.new.seen }
    ensures count { (K.told socket.old).count ≤ (K.told socket.new).count }
    ensures site { OnOk result (site.new.site ≡ site.old.site) }
{
    let stops = seat.poll(board);
    site.batch(rt, mem, plan, socket, stops)?;
    file(rt, book, share, site);
    Ok(())
}

/// Files the record that waits, if one does.
fn file<R: Wait>(rt: &R, book: &Book, share: &mut SiteShare, site: &mut Site)
    requires book { share.old.book ≡ book.now }
    requires entry { IfSome site.old.waiting (λ entry. (entry.site ≡ share.old.site)
        × (entry.die ≡ length share.old.records) × (entry.die < slice_index book.now.places entry.site)) }
    ensures share { share.new ≡ record share.old { records = share.old.records ++ option_to_list site.old.waiting } }
    ensures site { site.new ≡ record site.old { waiting = None } }
{
    if let Some(entry) = site.take() {
        book.file(rt, share, entry);
    }
}
