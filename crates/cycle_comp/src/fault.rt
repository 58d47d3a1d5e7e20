//! Why no instructions are written.

use answers::Short;
use flat_tree::Origin;
use stil_ast::StilKind;

/// A vector that can't run.
#[derive(Drop)]
pub struct VectorFault {
    /// The number of its tree, from 0.
    pub tree: usize,
    /// Where its V stands.
    pub place: Origin,
    /// NoTable, or NoWave where its table doesn't define a signal's character.
    pub kind: StilKind,
}

/// Why no instructions are written: want of memory, or the first vector that can't run.
pub type WriteError = Short<VectorFault>;
