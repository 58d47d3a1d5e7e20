//! The signals of groups, each group after those that it needs.

ghost use Rattle.std.specs.Prelude.{◌≡◌, ◌<◌, ℕ, List, [], true, false, length, map, replicate, slice_set, All, IfOk, OnOk};
ghost use Rattle.stil_ast.specs.Meaning.GroupReading.{terms_of};
ghost use Rattle.stil_ast.specs.Meaning.Members.{combined_text};
ghost use Rattle.stil_ast.specs.Meaning.Signals.{Names};
ghost use Rattle.signal_groups.specs.Table.{Table, with_members};
ghost use Rattle.signal_groups.specs.Lookup.{item_in};
ghost use Rattle.signal_groups.specs.Graph.{AreBelow, IsStuck, IsReady, AreSettled};
ghost use Rattle.signal_groups.specs.Located.{group_at};
ghost use Rattle.signal_groups.specs.Settled.{IsNamed, WereSettled, text_signals};

use crate::graph::{GroupList, next_ready};
use crate::groups::Located;
use crate::members::combined;
use crate::table::{SignalList, SignalTable};
use crate::term::terms_of;
use std::alloc::{AllocError, Global};

/// The signals of a text, none where it is no group expression.
fn text_signals(alloc: Global, table: &SignalTable, text: &[u8]) -> Result<SignalList, AllocError>
    ensures signals { IfOk result (λ signals. signals ≡ combined_text (item_in table.now) (terms_of text.now)) }
    ensures within { IfOk result (λ signals. All (λ s. s < length table.now.texts) signals) }
{
    match terms_of(alloc, text)? {
        Some(terms) => {
            let signals = combined(alloc, table, terms.as_slice())?;
            Ok(SignalList::from_vec(signals))
        }
        None => Ok(SignalList::from_vec(Vec::new(alloc))),
    }
}

/// Gives a group the signals of its text.
fn settle_one(
    alloc: Global,
    table: &mut SignalTable,
    done: &mut Vec<bool>,
    place: usize,
    group: &Located<'_>,
) -> Result<(), AllocError>
    requires place { place < length table.old.members }
    requires done { place < length done.old.items }
    ensures table { OnOk result (table.new ≡ with_members table.old
        (slice_set table.old.members place (text_signals table.old (group_at group.now).text))) }
    ensures done { OnOk result (done.new.items ≡ slice_set done.old.items place true) }
{
    let signals = text_signals(alloc, table, group.decl.text.text.as_slice())?;
    table.set_members(place, signals);
    done[place] = true;
    Ok(())
}

/// Gives groups the signals of their texts, as far as none waits for one that waits for it.
pub(crate) fn settle(
    alloc: Global,
    table: &mut SignalTable,
    done: &mut Vec<bool>,
    graph: &[GroupList],
    groups: &[Located<'_>],
) -> Result<(), AllocError>
    requires done { done.old.items ≡ replicate (length graph.now) false }
    requires graph { length graph.now ≡ length groups.now }
    requires members { length table.old.members ≡ length graph.now }
    ensures count { OnOk result (length done.new.items ≡ length graph.now) }
    ensures stuck { OnOk result (IsStuck graph.now done.new.items) }
    ensures settled { OnOk result ((names : Names) → IsNamed names (map group_at groups.now) graph.now table.old
        → WereSettled names graph.now done.new.items table.old table.new) }
{
    let mut next = next_ready(graph, done.as_slice());
    while next < graph.len() {
        settle_one(alloc, table, done, next, &groups[next])?;
        next = next_ready(graph, done.as_slice());
    }
    Ok(())
}
