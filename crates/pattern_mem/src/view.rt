//! What a seat knows of the table of its pool. No value of these types is made: they stand in proofs alone.

use packed_code::Code;

/// What a pool is made of: the code, and how many decoded pages there is room for.
pub struct Basis {
    pub code: Code,
    pub frames: u16,
}

/// What the opener's seat knows: how many passes were made, and what the pool is made of.
pub struct OpenerView {
    pub made: u64,
    pub basis: Basis,
}

/// What a pass knows: what the pool is made of, and whether it holds it.
pub struct PassView {
    pub basis: Basis,
    pub holds: bool,
}

/// What a seat knows.
pub enum View {
    Opener(OpenerView),
    Pass(PassView),
}
