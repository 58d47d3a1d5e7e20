//! How often a stop was asked for at each site.

ghost use Rattle.std.specs.Prelude.{◌≡◌, ◌<◌, slice_index};
ghost use Rattle.text_bytes.specs.Limits.{most_sites};

use std::marker::Model;
use text_bytes::MOST_SITES;

/// The number of stops that were asked for at each of the sites 0 to 15. Contracts see it as the list of these numbers.
#[derive(Debug, Drop)]
pub struct AskedList {
    words: [u64; MOST_SITES],
}

impl Model for AskedList {
    ghost use Rattle.std.specs.Prelude.{ℕ, List};

    ghost Value = { List ℕ };

    ghost view = { λ a. a.words };
}

impl AskedList {
    pub(crate) fn of_words(words: [u64; MOST_SITES]) -> AskedList
        ensures { result ≡ words }
    {
        AskedList { words }
    }

    /// The number of stops that were asked for at the site.
    pub fn get(&self, site: u8) -> u64
        requires { site < most_sites }
        ensures { result ≡ slice_index self.now site }
    {
        self.words[usize::from(site)]
    }
}
