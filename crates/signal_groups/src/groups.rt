//! The groups of SignalGroups blocks, and their names up to the first fault (IEEE 1450-1999, clause 15).

ghost use Rattle.std.specs.Prelude.{◌≡◌, ◌∷◌, [], ◌++◌, ℕ, List, Some, false, map, codes, IfOk, OnOk};
ghost use Rattle.std.specs.List.{list_any, flat_map};
ghost use Rattle.text_bytes.specs.Texts.{key_texts};
ghost use Rattle.answers.specs.Answers.{Blames, Gives};
ghost use Rattle.answers.specs.Reading.{stepping};
ghost use Rattle.stil_ast.specs.Data.Texts.{same};
ghost use Rattle.stil_ast.specs.Faults.Found.{fault_at};
ghost use Rattle.stil_ast.specs.Meaning.Signals.{grouped, groups_place};
ghost use Rattle.stil_ast.specs.declared.signal.GroupBlock.{GroupBlock};
ghost use Rattle.signal_groups.specs.Begun.{group_said};
ghost use Rattle.signal_groups.specs.Located.{group_at};

use indexmap::IndexSet;
use std::alloc::{AllocError, Global};
use stil_ast::{GroupBlock, GroupDecl, StilKind, StilRefusal, told};
use text_bytes::MOST_GROUPS;

/// A group, and the block in which it stands.
#[derive(Clone, Copy)]
pub(crate) struct Located<'a> {
    pub(crate) block: &'a [u8],
    pub(crate) decl: &'a GroupDecl,
}

/// The refusal of a line in a SignalGroups block of this name.
pub(crate) fn refused(alloc: Global, block: &[u8], line: u32, kind: StilKind) -> StilRefusal
    ensures { Blames (Some (fault_at (groups_place block.now line) kind)) result }
{
    told(alloc, b"SignalGroups", block, line, kind)
}

/// Puts the groups of a block behind the others.
fn add_block<'a>(found: &mut Vec<Located<'a>>, block: &'a GroupBlock) -> Result<(), AllocError>
    ensures { OnOk result (map group_at found.new.items
        ≡ map group_at found.old.items ++ map (grouped block.now.name) block.now.groups) }
{
    for decl in block.groups.as_slice() {
        found.push(Located {
            block: block.name.as_slice(),
            decl,
        })?;
    }
    Ok(())
}

/// The groups of all blocks.
pub(crate) fn groups_in<'a>(
    alloc: Global,
    blocks: &'a [GroupBlock],
) -> Result<Vec<Located<'a>>, AllocError>
    ensures { IfOk result (λ found. map group_at found.items
        ≡ flat_map (λ (b : GroupBlock). map (grouped b.name) b.groups) blocks.now) }
{
    let mut found = Vec::new(alloc);
    for block in blocks {
        add_block(&mut found, block)?;
    }
    Ok(found)
}

/// Whether a name stands among these.
fn has_name(names: &IndexSet<Vec<u8>>, name: &[u8]) -> bool
    ensures { result ≡ list_any (λ n. same n name.now) (key_texts names.now.keys) }
{
    names.contains(name)
}

/// Puts a name behind the others.
fn push(alloc: Global, names: &mut IndexSet<Vec<u8>>, name: &[u8]) -> Result<(), AllocError>
    requires { list_any (λ n. same n name.now) (key_texts names.old.keys) ≡ false }
    ensures { OnOk result (key_texts names.new.keys ≡ key_texts names.old.keys ++ name.now ∷ []) }
{
    let name = Vec::from_slice(alloc, name)?;
    names.insert(name)?;
    Ok(())
}

/// Takes the name of a group.
fn take(
    alloc: Global,
    names: &mut IndexSet<Vec<u8>>,
    group: &Located<'_>,
) -> Result<(), StilRefusal>
    ensures { Gives (λ _. key_texts names.new.keys)
        (group_said (key_texts names.old.keys) (group_at group.now)) result }
{
    let name = group.decl.name.as_slice();
    if has_name(names, name) {
        return Err(refused(alloc, group.block, group.decl.line, StilKind::Twice));
    }
    if names.len() >= MOST_GROUPS {
        return Err(refused(alloc, group.block, group.decl.line, StilKind::OutOfRange));
    }
    push(alloc, names, name)?;
    Ok(())
}

/// Takes the names of all groups.
pub(crate) fn take_names(
    alloc: Global,
    names: &mut IndexSet<Vec<u8>>,
    groups: &[Located<'_>],
) -> Result<(), StilRefusal>
    ensures { Gives (λ _. key_texts names.new.keys)
        (stepping group_said (key_texts names.old.keys) (map group_at groups.now)) result }
{
    for group in groups {
        take(alloc, names, group)?;
    }
    Ok(())
}
