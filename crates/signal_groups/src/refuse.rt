//! The first fault of the texts of groups (IEEE 1450-1999, clause 15).

ghost use Rattle.std.specs.Prelude.{◌≡◌, ◌<◌, ℕ, None, Some, length, map, IfOk};
ghost use Rattle.answers.specs.Answers.{Blames, Passes};
ghost use Rattle.signal_groups.specs.Graph.{AreBelow, kind_at, faults_from};
ghost use Rattle.signal_groups.specs.Located.{group_at};

use crate::graph::{GroupList, needs_itself};
use crate::groups::{Located, refused};
use std::alloc::{AllocError, Global};
use stil_ast::{StilKind, StilRefusal};

/// The fault of a group's text, if it has one, or that the group needs itself.
fn kind_at(
    alloc: Global,
    kinds: &[Option<StilKind>],
    graph: &[GroupList],
    group: usize,
) -> Result<Option<StilKind>, AllocError>
    requires below { AreBelow graph.now }
    requires within { group < length graph.now }
    requires count { length kinds.now ≡ length graph.now }
    ensures { IfOk result (λ kind. kind ≡ kind_at kinds.now graph.now group) }
{
    if let Some(kind) = kinds[group] {
        return Ok(Some(kind));
    }
    if needs_itself(alloc, graph, group)? {
        Ok(Some(StilKind::Cyclic))
    } else {
        Ok(None)
    }
}

/// Refuses the first text that has a fault.
fn first_refused(
    alloc: Global,
    groups: &[Located<'_>],
    kinds: &[Option<StilKind>],
    graph: &[GroupList],
) -> Result<(), StilRefusal>
    requires below { AreBelow graph.now }
    requires each { length groups.now ≡ length graph.now }
    requires count { length kinds.now ≡ length graph.now }
    ensures { Passes (faults_from (kind_at kinds.now graph.now) 0 (map group_at groups.now)) result }
{
    for (place, group) in groups.iter().enumerate() {
        if let Some(kind) = kind_at(alloc, kinds, graph, place)? {
            return Err(refused(alloc, group.block, group.decl.text.line, kind));
        }
    }
    Ok(())
}

/// The refusal of the first text that has a fault, where one has.
pub(crate) fn refusal(
    alloc: Global,
    groups: &[Located<'_>],
    kinds: &[Option<StilKind>],
    graph: &[GroupList],
) -> StilRefusal
    requires below { AreBelow graph.now }
    requires each { length groups.now ≡ length graph.now }
    requires count { length kinds.now ≡ length graph.now }
    requires some { faults_from (kind_at kinds.now graph.now) 0 (map group_at groups.now) ≡ None → ⊥ }
    ensures { Blames (faults_from (kind_at kinds.now graph.now) 0 (map group_at groups.now)) result }
{
    match first_refused(alloc, groups, kinds, graph) {
        Err(refusal) => refusal,
        Ok(()) => unreachable!(),
    }
}
