//! The versions of the saved form.

/// A version of the saved form. They differ in the head and in the rows.
#[derive(Clone, Copy, Debug, PartialEq, Eq)]
pub enum Version {
    /// Each row is spelled whole.
    One,
    /// A row is spelled as what it changes of the row before it, where that takes fewer bytes.
    Two,
}
