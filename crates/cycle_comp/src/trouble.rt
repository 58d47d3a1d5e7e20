//! Why writing stops in a tree.

use answers::Short;
use flat_tree::Origin;
use stil_ast::StilKind;

/// A vector whose V stands here can't run: it has no table, or its table doesn't define a signal's character.
#[derive(Drop)]
pub(crate) struct PlaceFault {
    pub(crate) place: Origin,
    pub(crate) kind: StilKind,
}

/// Want of memory, or the first vector that can't run.
pub(crate) type Trouble = Short<PlaceFault>;
