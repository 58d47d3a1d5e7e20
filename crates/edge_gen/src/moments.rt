//! Dated events in rising order, gathered into moments.

ghost use Rattle.std.specs.Prelude.{◌≡◌, ◌==◌, ◌+◌, ◌<◌, ◌≤◌, ◌^◌, map, take, drop, length, IfOk, OnOk, IsTrue, ◌↔◌, ◌++◌, [], ◌∷◌};
ghost use Rattle.std.specs.List.Sorted.{IsNonDecreasingBy};
ghost use Rattle.edge_gen.specs.Step.{with_drive, ends_with, moment_of, grouped, run_len};

use crate::dated::Dated;
use std::alloc::Global;
use tester_types::{Act, LookList, Moment, MomentList, NoMemory, Push, PushList};

/// The moments of events in the order of their times, in a cycle that begins at `start`.
pub(crate) fn group(alloc: Global, events: &[Dated], start: u128) -> Result<MomentList, NoMemory>
    requires early { start < 2 ^ 127 }
    requires rising { IsNonDecreasingBy (λ event. event.time) events.now }
    ensures { IfOk result (λ moments. moments ≡ grouped start events.now) }
{
    let mut moments = Vec::new(alloc);
    let mut rest = events;
    while let Some(first) = rest.first() {
        let (now, later) = rest.split_at(count_at(rest, first.time));
        moments.push(moment(alloc, start + u128::from(first.time), now)?)?;
        rest = later;
    }
    Ok(MomentList::from_vec(moments))
}

/// How many events at the front are of this time.
fn count_at(events: &[Dated], time: u64) -> usize
    ensures { result ≡ run_len time events.now }
{
    events.iter().take_while(|event| event.time == time).count()
}

/// The moment of events of one instant.
fn moment(alloc: Global, at: u128, events: &[Dated]) -> Result<Moment, NoMemory>
    ensures { IfOk result (λ moment. moment ≡ moment_of at events.now) }
{
    let mut drives = Vec::new(alloc);
    let mut looks = Vec::new(alloc);
    for event in events {
        match event.act {
            Act::Push(push) => put_drive(&mut drives, event.signal, push)?,
            Act::Look(look) => looks.push((event.signal, look))?,
        }
    }
    Ok(Moment {
        at,
        drives: PushList::from_vec(drives),
        looks: LookList::from_vec(looks),
    })
}

/// Appends a drive, in the place of the last one where that is of the same signal.
fn put_drive(drives: &mut Vec<(u16, Push)>, signal: u16, push: Push) -> Result<(), NoMemory>
    ensures { OnOk result (drives.new.items ≡ with_drive drives.old.items (signal, push)) }
{
    if is_last_of(drives, signal) {
        drives.pop();
    }
    drives.push((signal, push))?;
    Ok(())
}

/// Whether the last of the drives is of this signal.
fn is_last_of(drives: &[(u16, Push)], signal: u16) -> bool
    ensures { result ≡ ends_with drives.now signal }
{
    drives.last().is_some_and(|drive| drive.0 == signal)
}
