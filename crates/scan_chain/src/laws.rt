//! What the chains of one text are like.

ghost use Rattle.scan_chain.specs.Short.{ChainsAreShort};

/// A chain of one text has at most 2^20 cells, and no more are listed.
pub fn chains_are_short()
    ensures { ChainsAreShort }
{}
