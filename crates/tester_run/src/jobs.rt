//! The jobs of a lot's sites, which go to threads and come back.

ghost use Rattle.std.specs.Prelude.{◌≡◌, ◌≤◌, ◌++◌, Some, None, All, IfOk, OnOk, length};
ghost use Rattle.std.specs.List.{list_any};
ghost use Rattle.tester_run.specs.Jobs.{shares_of, seats_of, sockets_of};
ghost use Rattle.tester_run.specs.declared.jobs.Job.{Job};

use die_sim::Socket;
use lot_book::SiteShare;
use pattern_mem::{PatternMem, PoolPass};
use std::alloc::Global;
use stop_board::SiteSeat;
use tester_types::NoMemory;

/// What the work of a site is done with, and whether memory ran out in it.
#[derive(Drop)]
pub(crate) struct Job<K: Drop> {
    pub socket: K,
    pub share: SiteShare,
    pub seat: SiteSeat,
    pub pass: Option<PoolPass>,
    pub failed: bool,
}

/// A job for each share, with the first sockets, which leave their list.
pub(crate) fn make_jobs<K: Socket>(
    alloc: Global,
    mem: &PatternMem,
    sockets: &mut Vec<K>,
    mut shares: Vec<SiteShare>,
    mut seats: Vec<SiteSeat>,
    mut passes: Vec<PoolPass>,
) -> Result<Vec<Job<K>>, NoMemory>
    requires sockets { length shares.items ≤ length sockets.old.items }
    requires seats { length seats.items ≡ length shares.items }
    requires enough { length shares.items ≤ length passes.items }
    requires passes { All (λ pass. pass ≡ mem.now) passes.items }
    ensures sockets { IfOk result (λ jobs. sockets_of jobs.items ++ sockets.new.items ≡ sockets.old.items) }
    ensures shares { IfOk result (λ jobs. shares_of jobs.items ≡ shares.items) }
    ensures seats { IfOk result (λ jobs. seats_of jobs.items ≡ seats.items) }
    ensures passes { IfOk result (λ jobs. All (λ (j : Job K). j.pass ≡ Some mem.now) jobs.items) }
{
    let mut jobs = Vec::with_capacity(alloc, shares.len())?;
    while !shares.is_empty() {
        jobs.push(Job {
            socket: sockets.remove(0),
            share: shares.remove(0),
            seat: seats.remove(0),
            pass: Some(passes.remove(0)),
            failed: false,
        })?;
    }
    Ok(jobs)
}

/// Whether memory ran out in one of these jobs.
pub(crate) fn any_failed<K: Socket>(jobs: &[Job<K>]) -> bool
    ensures { result ≡ list_any (λ (j : Job K). j.failed) jobs.now }
{
    jobs.iter().any(|job| job.failed)
}

/// Takes jobs apart, with their sockets in front of the others.
pub(crate) fn take_apart<K: Socket>(
    alloc: Global,
    jobs: Vec<Job<K>>,
    sockets: &mut Vec<K>,
) -> Result<(Vec<SiteShare>, Vec<SiteSeat>), NoMemory>
    ensures sockets { OnOk result (sockets.new.items ≡ sockets_of jobs.items ++ sockets.old.items) }
    ensures shares { IfOk result (λ lists. lists.0.items ≡ shares_of jobs.items) }
    ensures seats { IfOk result (λ lists. lists.1.items ≡ seats_of jobs.items) }
{
    let mut back = Vec::with_capacity(alloc, jobs.len())?;
    let mut shares = Vec::with_capacity(alloc, jobs.len())?;
    let mut seats = Vec::with_capacity(alloc, jobs.len())?;
    for Job {
        socket,
        share,
        seat,
        pass: _,
        failed: _,
    } in jobs {
        back.push(socket)?;
        shares.push(share)?;
        seats.push(seat)?;
    }
    back.append(sockets)?;
    *sockets = back;
    Ok((shares, seats))
}
