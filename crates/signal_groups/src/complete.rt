//! Groups with their signals, or the first fault of their texts.

ghost use Rattle.std.specs.Prelude.{◌≡◌, ◌<◌, ◌≤◌, ℕ, List, [], None, true, false, is_some, length, map, replicate, slice_index_or, IfOk};
ghost use Rattle.stil_ast.specs.Meaning.Signals.{Names};
ghost use Rattle.signal_groups.specs.Graph.{is_done};
ghost use Rattle.signal_groups.specs.Located.{group_at};
ghost use Rattle.signal_groups.specs.Settled.{IsBegun, Completes};

use crate::groups::Located;
use crate::read::read_groups;
use crate::refuse::refusal;
use crate::settle::settle;
use crate::table::SignalTable;
use std::alloc::{AllocError, Global};
use stil_ast::{StilKind, StilRefusal};

/// The first group whose text has a fault; how many groups there are, where none has.
fn first_bad(kinds: &[Option<StilKind>]) -> usize
    ensures within { result ≤ length kinds.now }
    ensures before { (k : ℕ) → k < result → slice_index_or kinds.now k None ≡ None }
    ensures bad { result < length kinds.now → is_some (slice_index_or kinds.now result None) ≡ true }
{
    for (place, kind) in kinds.iter().enumerate() {
        if kind.is_some() {
            return place;
        }
    }
    kinds.len()
}

/// The first group that isn't done; how many groups there are, where all are.
fn first_waiting(done: &[bool]) -> usize
    ensures within { result ≤ length done.now }
    ensures before { (k : ℕ) → k < result → is_done done.now k ≡ true }
    ensures waiting { result < length done.now → is_done done.now result ≡ false }
{
    for (place, is_done) in done.iter().enumerate() {
        if !*is_done {
            return place;
        }
    }
    done.len()
}

/// So many groups that aren't done.
fn none_done(alloc: Global, count: usize) -> Result<Vec<bool>, AllocError>
    ensures { IfOk result (λ done. done.items ≡ replicate count false) }
{
    let mut done = Vec::new(alloc);
    for _ in 0..count {
        done.push(false)?;
    }
    Ok(done)
}

/// The table with the signals of its groups, or the first fault of their texts.
pub(crate) fn complete(
    alloc: Global,
    mut table: SignalTable,
    groups: &[Located<'_>],
) -> Result<SignalTable, StilRefusal>
    requires each { length table.groups ≡ length groups.now }
    requires members { length table.members ≡ length groups.now }
    ensures { (names : Names) → IsBegun names (map group_at groups.now) table → Completes names result }
{
    let (kinds, graph) = read_groups(alloc, &table, groups)?;
    if first_bad(kinds.as_slice()) < kinds.len() {
        return Err(refusal(alloc, groups, kinds.as_slice(), graph.as_slice()));
    }
    let mut done = none_done(alloc, graph.len())?;
    settle(alloc, &mut table, &mut done, graph.as_slice(), groups)?;
    if first_waiting(done.as_slice()) < done.len() {
        return Err(refusal(alloc, groups, kinds.as_slice(), graph.as_slice()));
    }
    Ok(table)
}
