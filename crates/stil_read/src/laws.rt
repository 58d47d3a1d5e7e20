//! What follows for blocks that are read.

ghost use Rattle.stil_read.specs.Accepted.{BlocksAreOfOneText};

/// The blocks that are read of a text's tokens and statements are of one text: each statement has its form, no name that
/// may stand once stands twice, and counts are within their limits. The text has at most 16,777,216 bytes.
pub fn blocks_are_of_one_text()
    ensures { BlocksAreOfOneText }
{}
