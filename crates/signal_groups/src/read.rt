//! What the texts of groups are: their faults, and the groups that they need.

ghost use Rattle.std.specs.Prelude.{◌≡◌, ◌∷◌, ◌++◌, ◌≤◌, ℕ, List, [], None, Some, map, length, OnOk, IfOk};
ghost use Rattle.std.specs.List.{filter_map};
ghost use Rattle.stil_ast.specs.Meaning.GroupText.{Term};
ghost use Rattle.stil_ast.specs.Meaning.GroupReading.{terms_of};
ghost use Rattle.stil_ast.specs.Meaning.Signals.{Group};
ghost use Rattle.signal_groups.specs.Lexed.{name_ref, term_of};
ghost use Rattle.signal_groups.specs.Lookup.{number_in, terms_kind};
ghost use Rattle.signal_groups.specs.Graph.{needed_by, needed_in};
ghost use Rattle.signal_groups.specs.Located.{group_at};

use crate::graph::GroupList;
use crate::groups::Located;
use crate::resolve::are_known;
use crate::table::SignalTable;
use crate::term::{HeldTerm, terms_of};
use std::alloc::{AllocError, Global};
use stil_ast::StilKind;

/// The group that an item needs.
fn needed_by(table: &SignalTable, term: &HeldTerm) -> Option<u16>
    ensures { result ≡ needed_by table.now.texts table.now.groups (term_of term.now) }
{
    table.soundness();
    match term.item.range {
        Some(_) => None,
        None => table.group_alone(term.item.name),
    }
}

/// Puts the group that an item needs behind the others, if it needs one.
fn add_needed(table: &SignalTable, needs: &mut Vec<u16>, term: &HeldTerm) -> Result<(), AllocError>
    ensures { OnOk result ((rest : List Term) →
        needs.new.items ++ filter_map (needed_by table.now.texts table.now.groups) rest
        ≡ needs.old.items ++ filter_map (needed_by table.now.texts table.now.groups) (term_of term.now ∷ rest)) }
{
    if let Some(group) = needed_by(table, term) {
        needs.push(group)?;
    }
    Ok(())
}

/// The groups that items need.
fn needed_in(
    alloc: Global,
    table: &SignalTable,
    terms: &[HeldTerm],
) -> Result<GroupList, AllocError>
    ensures { IfOk result (λ needs. needs
        ≡ filter_map (needed_by table.now.texts table.now.groups) (map term_of terms.now)) }
{
    let mut needs = Vec::new(alloc);
    for term in terms {
        add_needed(table, &mut needs, term)?;
    }
    Ok(GroupList::from_vec(needs))
}

/// The fault of items, if they have one.
fn terms_kind(
    alloc: Global,
    table: &SignalTable,
    terms: &[HeldTerm],
) -> Result<Option<StilKind>, AllocError>
    ensures { IfOk result (λ kind. kind ≡ terms_kind table.now (Some (map term_of terms.now))) }
{
    if are_known(alloc, table, terms)? {
        Ok(None)
    } else {
        Ok(Some(StilKind::UnknownName))
    }
}

/// The fault of a text, if it has one, and the groups that it needs.
fn read_text(
    alloc: Global,
    table: &SignalTable,
    text: &[u8],
) -> Result<(Option<StilKind>, GroupList), AllocError>
    ensures kind { IfOk result (λ read. read.0 ≡ terms_kind table.now (terms_of text.now)) }
    ensures needs { IfOk result (λ read. read.1 ≡ needed_in table.now.texts table.now.groups (terms_of text.now)) }
{
    match terms_of(alloc, text)? {
        None => Ok((Some(StilKind::Shape), GroupList::from_vec(Vec::new(alloc)))),
        Some(terms) => {
            let kind = terms_kind(alloc, table, terms.as_slice())?;
            let needs = needed_in(alloc, table, terms.as_slice())?;
            Ok((kind, needs))
        }
    }
}

/// Puts the fault of a group's text, and the groups that it needs, behind the others.
fn add_read(
    alloc: Global,
    table: &SignalTable,
    kinds: &mut Vec<Option<StilKind>>,
    graph: &mut Vec<GroupList>,
    group: &Located<'_>,
) -> Result<(), AllocError>
    ensures kinds { OnOk result (kinds.new.items
        ≡ kinds.old.items ++ terms_kind table.now (terms_of (group_at group.now).text) ∷ []) }
    ensures graph { OnOk result (graph.new.items
        ≡ graph.old.items ++ needed_in table.now.texts table.now.groups (terms_of (group_at group.now).text) ∷ []) }
{
    let (kind, needs) = read_text(alloc, table, group.decl.text.text.as_slice())?;
    kinds.push(kind)?;
    graph.push(needs)?;
    Ok(())
}

/// The faults of the texts of groups, and the groups that they need.
pub(crate) fn read_groups(
    alloc: Global,
    table: &SignalTable,
    groups: &[Located<'_>],
) -> Result<(Vec<Option<StilKind>>, Vec<GroupList>), AllocError>
    ensures kinds { IfOk result (λ read. read.0.items
        ≡ map (λ (g : Group). terms_kind table.now (terms_of g.text)) (map group_at groups.now)) }
    ensures graph { IfOk result (λ read. read.1.items
        ≡ map (λ (g : Group). needed_in table.now.texts table.now.groups (terms_of g.text)) (map group_at groups.now)) }
{
    let mut kinds = Vec::new(alloc);
    let mut graph = Vec::new(alloc);
    for group in groups {
        add_read(alloc, table, &mut kinds, &mut graph, group)?;
    }
    Ok((kinds, graph))
}
