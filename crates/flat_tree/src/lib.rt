//! The flat tree of a pattern in memory: tables, characters and vectors with every name resolved, in loops and saves.
#![tactic(auto)]

mod ahead;
mod calling;
mod flat;
mod laws;
mod measure;
mod only_last;
mod place;
mod steps;

pub use flat::FlatList;
pub use laws::{
    joined_associates, joined_with_nothing, same_is_joined, same_is_reflexive, same_is_repeated,
    same_is_saved, same_is_transitive,
};
pub use place::{BodyKind, Origin};
pub use steps::{FlatItem, FlatSteps};
