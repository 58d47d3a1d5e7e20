//! The macros or the procedures of a text, joined by the names of their blocks (IEEE 1450-1999, clause 24).

ghost use Rattle.std.specs.Prelude.{◌≡◌, ◌<◌, List, Some, length, slice_get, IfOk};
ghost use Rattle.stil_ast.specs.declared.blocks.DefBlock.{DefBlock};
ghost use Rattle.stil_ast.specs.declared.blocks.BodyDef.{BodyDef};
ghost use Rattle.burst_exec.specs.Joined.{AreJoined, HasJoined};

use indexmap::IndexMap;
use macro_expand::Bodies;
use pattern_order::{Places, add_place, place_of};
use std::alloc::{AllocError, Global};
use stil_ast::DefBlock;

/// The bodies of those blocks that were asked for, joined by name once. They are numbered in the order of asking.
#[derive(Drop)]
pub(crate) struct JoinedBodies<'a> {
    pub(crate) places: Places<'a>,
    pub(crate) made: Vec<Bodies<'a>>,
}

impl<'a> JoinedBodies<'a> {
    /// None are joined yet.
    pub(crate) fn new(alloc: Global) -> JoinedBodies<'a>
        ensures { (blocks : List DefBlock) → AreJoined blocks result }
    {
        JoinedBodies {
            places: IndexMap::new(alloc),
            made: Vec::new(alloc),
        }
    }

    /// Joins those of the blocks that have this name, unless they are; answers their number.
    pub(crate) fn join(
        &mut self,
        alloc: Global,
        blocks: &'a [DefBlock],
        title: &'a [u8],
    ) -> Result<usize, AllocError>
        requires { AreJoined blocks.now self.old }
        ensures { IfOk result (λ number. HasJoined blocks.now title.now number self.new) }
    {
        if let Some(number) = place_of(&self.places, title) {
            return Ok(number);
        }
        let bodies = Bodies::new(alloc, blocks, title)?;
        let number = self.made.len();
        self.made.push(bodies)?;
        add_place(&mut self.places, title, number)?;
        Ok(number)
    }

    /// The joined bodies of a number.
    pub(crate) fn get(&self, number: usize) -> &Bodies<'a>
        requires { number < length self.now.made.items }
        ensures { (b : List BodyDef) → slice_get self.now.made.items number ≡ Some b → result.now ≡ b }
    {
        &self.made[number]
    }
}
