//! Laws of flat trees.

ghost use Rattle.flat_tree.specs.Laws.{JoinedAssociates, JoinedWithNothing, SameIsJoined, SameIsRepeated, SameIsSaved, SameIsReflexive, SameIsTransitive};

/// Trees are joined in any grouping.
pub fn joined_associates()
    ensures { JoinedAssociates }
{}

/// A tree with nothing behind it is itself.
pub fn joined_with_nothing()
    ensures { JoinedWithNothing }
{}

/// Trees that are as good as others stay so with such trees behind them.
pub fn same_is_joined()
    ensures { SameIsJoined }
{}

/// Trees that are as good as others stay so in a loop.
pub fn same_is_repeated()
    ensures { SameIsRepeated }
{}

/// Trees that are as good as others stay so in a save.
pub fn same_is_saved()
    ensures { SameIsSaved }
{}

/// A tree is as good as itself.
pub fn same_is_reflexive()
    ensures { SameIsReflexive }
{}

/// What is as good as a tree that is as good as a third is as good as the third.
pub fn same_is_transitive()
    ensures { SameIsTransitive }
{}
