//! The flat trees of an executive's patterns as they are put together.

ghost use Rattle.std.specs.Prelude.{◌≡◌, ◌++◌, ◌∷◌, [], OnOk};
ghost use Rattle.macro_expand.specs.Scopes.{titles_in};
ghost use Rattle.burst_exec.specs.Held.{trees_in, AreEven};

use flat_tree::FlatList;
use macro_expand::BlockTitles;
use std::alloc::{AllocError, Global};

/// Flat trees of patterns in running order, and the names of the blocks in which the bodies of each stand.
#[derive(Drop)]
pub(crate) struct Draft<'a> {
    pub(crate) flats: Vec<FlatList>,
    pub(crate) titles: Vec<BlockTitles<'a>>,
}

impl<'a> Draft<'a> {
    /// No patterns yet.
    pub(crate) fn new(alloc: Global) -> Draft<'a>
        ensures even { AreEven result.titles.items result.flats.items }
        ensures none { trees_in result.titles.items result.flats.items ≡ [] }
    {
        Draft {
            flats: Vec::new(alloc),
            titles: Vec::new(alloc),
        }
    }

    /// Puts the tree of a pattern behind the others.
    pub(crate) fn put(&mut self, flat: FlatList, titles: BlockTitles<'a>) -> Result<(), AllocError>
        requires { AreEven self.old.titles.items self.old.flats.items }
        ensures even { OnOk result (AreEven self.new.titles.items self.new.flats.items) }
        ensures one_more { OnOk result (trees_in self.new.titles.items self.new.flats.items
            ≡ trees_in self.old.titles.items self.old.flats.items
            ++ record { titles = titles_in titles.entry; flat = flat } ∷ []) }
    {
        self.flats.push(flat)?;
        self.titles.push(titles)?;
        Ok(())
    }
}
