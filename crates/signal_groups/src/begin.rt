//! Signals, and groups by their names, or the first fault of their declarations.

ghost use Rattle.std.specs.Prelude.{◌≡◌, ℕ, List, [], length, map, replicate, IfOk};
ghost use Rattle.std.specs.List.{flat_map};
ghost use Rattle.text_bytes.specs.Texts.{key_texts};
ghost use Rattle.answers.specs.Answers.{Finds};
ghost use Rattle.stil_ast.specs.Faults.Found.{or_else};
ghost use Rattle.stil_ast.specs.Faults.SignalFaults.{signals_fault, groups_fault};
ghost use Rattle.stil_ast.specs.Meaning.Signals.{Group, declared, names_of};
ghost use Rattle.signal_groups.specs.Begun.{begun_in, begun_of};
ghost use Rattle.signal_groups.specs.Located.{group_at};
ghost use Rattle.signal_groups.specs.Settled.{IsBegun};

use crate::groups::{Located, take_names};
use crate::places::are_apart;
use crate::signals::take_signals;
use crate::table::{Declared, SignalList, SignalTable};
use indexmap::IndexSet;
use std::alloc::{AllocError, Global};
use stil_ast::{Blocks, SignalDecl, StilRefusal};

/// The signals of declarations.
fn signals_of(
    alloc: Global,
    decls: &[SignalDecl],
) -> Result<(IndexSet<Vec<u8>>, Vec<Declared>), StilRefusal>
    ensures { Finds (signals_fault [] (flat_map declared decls.now))
        (λ made. begun_in made.0.keys made.1.items ≡ begun_of (flat_map declared decls.now)) result }
{
    let mut texts = IndexSet::new(alloc);
    let mut kept = Vec::new(alloc);
    match take_signals(alloc, &mut texts, &mut kept, decls) {
        Ok(()) => Ok((texts, kept)),
        Err(refusal) => Err(refusal),
    }
}

/// The names of groups.
fn called(alloc: Global, groups: &[Located<'_>]) -> Result<IndexSet<Vec<u8>>, StilRefusal>
    ensures { Finds (groups_fault [] (map group_at groups.now))
        (λ names. key_texts names.keys ≡ map (λ (g : Group). g.name) (map group_at groups.now)) result }
{
    let mut names = IndexSet::new(alloc);
    match take_names(alloc, &mut names, groups) {
        Ok(()) => Ok(names),
        Err(refusal) => Err(refusal),
    }
}

/// So many groups without signals.
fn no_members(alloc: Global, count: usize) -> Result<Vec<SignalList>, AllocError>
    ensures { IfOk result (λ members. members.items ≡ replicate count []) }
{
    let mut members = Vec::new(alloc);
    for _ in 0..count {
        members.push(SignalList::from_vec(Vec::new(alloc)))?;
    }
    Ok(members)
}

/// The signals of a text and its groups, without their signals.
pub(crate) fn begin(
    alloc: Global,
    blocks: &Blocks,
    groups: &[Located<'_>],
) -> Result<SignalTable, StilRefusal>
    requires groups { map group_at groups.now ≡ (names_of blocks.now).groups }
    ensures begun { Finds (or_else (signals_fault [] (names_of blocks.now).signals)
        (groups_fault [] (names_of blocks.now).groups))
        (λ table. IsBegun (names_of blocks.now) (map group_at groups.now) table) result }
    ensures members { IfOk result (λ table. length table.members ≡ length groups.now) }
{
    let (texts, declared) = signals_of(alloc, blocks.signals.as_slice())?;
    let names = called(alloc, groups)?;
    let members = no_members(alloc, groups.len())?;
    let apart = are_apart(&texts, &names);
    Ok(SignalTable {
        texts,
        declared,
        groups: names,
        members,
        apart,
    })
}
