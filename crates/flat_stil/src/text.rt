//! A flat text.

ghost use Rattle.std.specs.Prelude.{◌≡◌};

use std::marker::Model;

/// A flat STIL text. Contracts see it as its bytes.
#[derive(Debug, Drop)]
pub struct FlatText {
    bytes: Vec<u8>,
}

impl Model for FlatText {
    ghost use Rattle.std.specs.Prelude.{ℕ, List};

    ghost Value = { List ℕ };

    ghost view = { λ t. t.bytes.items };
}

impl FlatText {
    /// The text of these bytes.
    pub(crate) fn new(bytes: Vec<u8>) -> FlatText
        ensures { result ≡ bytes.items }
    {
        FlatText { bytes }
    }

    /// Its bytes.
    pub fn as_slice(&self) -> &[u8]
        ensures { result.now ≡ self.now }
    {
        self.bytes.as_slice()
    }
}
