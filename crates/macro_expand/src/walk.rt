//! How far a walk over statements has come.

use crate::arguments::Arguments;
use crate::pairing::Pair;
use crate::references::References;
use crate::signal_set::SignalSet;
use flat_tree::FlatList;

/// What is left of the arguments, the signals that got a `#` in this pass of a Shift and in this statement, how many
/// statements were walked and signals assigned, and the tree that was written. The pairs are those of the assignment at
/// hand, in a list that is filled again for each. The references are those of a Shift's body, where they were found in the
/// pass before.
#[derive(Drop)]
pub(crate) struct Walk {
    pub(crate) args: Arguments,
    pub(crate) hashes: SignalSet,
    pub(crate) taken: SignalSet,
    pub(crate) count: u32,
    pub(crate) out: FlatList,
    pub(crate) pairs: Vec<Pair>,
    pub(crate) references: References,
}
