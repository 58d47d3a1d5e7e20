//! What the names in bursts mean.

/// What a name in a burst means.
#[derive(Clone, Copy, PartialEq, Eq)]
pub(crate) enum Meaning {
    /// Nothing has the name.
    Unknown,
    /// It names a block of its kind.
    Block,
    /// It names the pattern of this number.
    Pattern(usize),
    /// It names the burst of this number.
    Burst(usize),
}
