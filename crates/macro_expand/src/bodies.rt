//! The macros or the procedures that a pattern may name.

ghost use Rattle.std.specs.Prelude.{◌≡◌, ◌++◌, ℕ, List, [], IfOk, OnOk, position, slice_get};
ghost use Rattle.std.specs.Option.{option_copied};
ghost use Rattle.stil_ast.specs.Data.Texts.{same};
ghost use Rattle.stil_ast.specs.Meaning.Resolved.{bodies_named, body_number};
ghost use Rattle.stil_ast.specs.declared.blocks.BodyDef.{BodyDef};
ghost use Rattle.pattern_order.specs.Numbers.{place_in};
ghost use Rattle.macro_expand.specs.Lent.{lent};

use indexmap::IndexMap;
use pattern_order::{Places, add_place, place_of};
use std::alloc::{AllocError, Global};
use std::marker::Model;
use stil_ast::{BodyDef, DefBlock};

/// The macros or the procedures that a pattern may name, in text order. A contract sees their list. A name is looked up
/// by hash.
#[derive(Drop)]
pub struct Bodies<'a> {
    defs: Vec<&'a BodyDef>,
    places: Places<'a>,
}

impl<'a> Model for Bodies<'a> {
    ghost use Rattle.std.specs.Prelude.{List};
    ghost use Rattle.stil_ast.specs.declared.blocks.BodyDef.{BodyDef};
    ghost use Rattle.macro_expand.specs.Lent.{lent, ArePlaced};

    ghost Value = { List BodyDef };

    ghost use Rattle.std.specs.Coded.{codes};
    ghost use Rattle.stil_ast.specs.contracts.blocks.BodyDef as def;

    ghost coded = { Prim.hlevel (codes, def.the_row.coded) };

    ghost view = { λ b. lent b.defs.items };

    ghost invariant = { λ b. ArePlaced (lent b.defs.items) b.places };
}

/// Puts the bodies of a block behind the others.
fn add_block<'a>(defs: &mut Vec<&'a BodyDef>, block: &'a DefBlock) -> Result<(), AllocError>
    ensures { OnOk result (lent defs.new.items ≡ lent defs.old.items ++ block.now.bodies) }
{
    for def in block.bodies.as_slice() {
        defs.push(def)?;
    }
    Ok(())
}

/// The bodies of all blocks of one name.
fn defs_named<'a>(
    alloc: Global,
    blocks: &'a [DefBlock],
    title: &[u8],
) -> Result<Vec<&'a BodyDef>, AllocError>
    ensures { IfOk result (λ defs. lent defs.items ≡ bodies_named blocks.now title.now) }
{
    let mut defs = Vec::new(alloc);
    for block in blocks {
        if block.name.as_slice() == title {
            add_block(&mut defs, block)?;
        }
    }
    Ok(defs)
}

/// The first place of each name.
fn places_of<'a>(alloc: Global, defs: &[&'a BodyDef]) -> Result<Places<'a>, AllocError>
    ensures { IfOk result (λ places. (name : List ℕ) → place_in places name
        ≡ position (λ (d : BodyDef). same d.name name) (lent defs.now)) }
{
    let mut places = IndexMap::new(alloc);
    for (place, def) in defs.iter().enumerate() {
        add_place(&mut places, def.name.as_slice(), place)?;
    }
    Ok(places)
}

impl<'a> Bodies<'a> {
    /// The bodies of all MacroDefs or Procedures blocks of one name; the name is empty where the unnamed ones are meant.
    pub fn new(
        alloc: Global,
        blocks: &'a [DefBlock],
        title: &[u8],
    ) -> Result<Bodies<'a>, AllocError>
        ensures { IfOk result (λ b. b ≡ bodies_named blocks.now title.now) }
    {
        let defs = defs_named(alloc, blocks, title)?;
        let places = places_of(alloc, defs.as_slice())?;
        Ok(Bodies { defs, places })
    }

    /// The number of the body of this name, or one past the last.
    pub(crate) fn number(&self, name: &[u8]) -> usize
        ensures { result ≡ body_number self.now name.now }
    {
        match place_of(&self.places, name) {
            Some(number) => number,
            None => self.defs.len(),
        }
    }

    /// The body of this number, where there is one.
    pub(crate) fn get(&self, number: usize) -> Option<&'a BodyDef>
        ensures { option_copied result ≡ slice_get self.now number }
    {
        self.defs.get(number).copied()
    }
}
