//! The groups that groups need.

ghost use Rattle.std.specs.Prelude.{◌≡◌, ◌<◌, ◌≤◌, ℕ, List, [], true, false, length, slice_index, All, IfOk};
ghost use Rattle.stil_ast.specs.Meaning.Members.{added};
ghost use Rattle.signal_groups.specs.Marks.{AreMarked};
ghost use Rattle.signal_groups.specs.Graph.{needs_at, reaches, AreBelow, is_done, IsStuck, IsStuckAt, IsReady};

use crate::members::{add_all, no_marks};
use std::alloc::{AllocError, Global};
use tester_types::Items;

/// The numbers of groups.
pub(crate) type GroupList = Items<u16>;

/// The groups that a group needs.
fn needs_at(graph: &[GroupList], group: usize) -> &[u16]
    requires { group < length graph.now }
    ensures { result.now ≡ needs_at graph.now group }
{
    graph[group].as_slice()
}

/// Whether a group is done.
fn is_done(done: &[bool], group: usize) -> bool
    ensures { result ≡ is_done done.now group }
{
    done.get(group).copied().unwrap_or(false)
}

/// Where the first group stands that isn't done.
fn first_undone(groups: &[u16], done: &[bool]) -> usize
    ensures within { result ≤ length groups.now }
    ensures before { (k : ℕ) → k < result → is_done done.now (slice_index groups.now k) ≡ true }
    ensures undone { result < length groups.now → is_done done.now (slice_index groups.now result) ≡ false }
{
    for (place, group) in groups.iter().enumerate() {
        if !is_done(done, *group as usize) {
            return place;
        }
    }
    groups.len()
}

/// Whether a group isn't done, and all that it needs are.
fn is_ready(graph: &[GroupList], done: &[bool], group: usize) -> bool
    requires { group < length graph.now }
    ensures ready { result ≡ true → IsReady graph.now done.now group }
    ensures stuck { result ≡ false → is_done done.now group ≡ false → IsStuckAt graph.now done.now group }
{
    if is_done(done, group) {
        return false;
    }
    let needs = needs_at(graph, group);
    first_undone(needs, done) == needs.len()
}

/// The first group that isn't done while all that it needs are; how many groups there are, where there is none.
pub(crate) fn next_ready(graph: &[GroupList], done: &[bool]) -> usize
    ensures within { result ≤ length graph.now }
    ensures ready { result < length graph.now → IsReady graph.now done.now result }
    ensures stuck { result ≡ length graph.now → IsStuck graph.now done.now }
{
    for group in 0..graph.len() {
        if is_ready(graph, done, group) {
            return group;
        }
    }
    graph.len()
}

/// The groups that are needed by these, and by those that they need.
pub(crate) fn walked(
    alloc: Global,
    graph: &[GroupList],
    from: &[u16],
) -> Result<Vec<bool>, AllocError>
    requires below { AreBelow graph.now }
    requires within { All (λ h. h < length graph.now) from.now }
    ensures { IfOk result (λ marks. (t : ℕ) → is_done marks.items t ≡ reaches graph.now (length graph.now) from.now t) }
{
    let mut order = Vec::new(alloc);
    let mut marks = no_marks(alloc, graph.len())?;
    add_all(&mut order, &mut marks, from)?;
    let mut at = 0;
    while at < order.len() {
        let needs = needs_at(graph, order[at] as usize);
        add_all(&mut order, &mut marks, needs)?;
        at += 1;
    }
    Ok(marks)
}

/// Whether a group needs itself.
pub(crate) fn needs_itself(
    alloc: Global,
    graph: &[GroupList],
    group: usize,
) -> Result<bool, AllocError>
    requires below { AreBelow graph.now }
    requires within { group < length graph.now }
    ensures { IfOk result (λ itself. itself ≡ reaches graph.now (length graph.now) (needs_at graph.now group) group) }
{
    let marks = walked(alloc, graph, needs_at(graph, group))?;
    Ok(is_done(marks.as_slice(), group))
}
