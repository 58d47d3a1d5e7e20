//! Where names stand among those that a table keeps.

ghost use Rattle.std.specs.Prelude.{◌≡◌, ◌<◌, Some, IsTrue, IfSome, length};
ghost use Rattle.text_bytes.specs.Texts.{key_texts};
ghost use Rattle.signal_groups.specs.Lookup.{number_in, are_apart};

use indexmap::IndexSet;

/// Where a name stands.
pub(crate) fn place_among(names: &IndexSet<Vec<u8>>, name: &[u8]) -> Option<usize>
    ensures number { result ≡ number_in (key_texts names.now.keys) name.now }
    ensures within { IfSome result (λ place. place < length (key_texts names.now.keys)) }
{
    names.get_index_of(name)
}

/// Whether a name stands at a place.
pub(crate) fn stands_at(names: &IndexSet<Vec<u8>>, place: usize, name: &[u8]) -> bool
    ensures { IsTrue result → number_in (key_texts names.now.keys) name.now ≡ Some place }
{
    match names.as_slice().get(place) {
        Some(key) => key.as_slice() == name,
        None => false,
    }
}

/// Whether no group has the name of a signal.
pub(crate) fn are_apart(signals: &IndexSet<Vec<u8>>, groups: &IndexSet<Vec<u8>>) -> bool
    ensures { result ≡ are_apart (key_texts signals.now.keys) (key_texts groups.now.keys) }
{
    for group in groups.as_slice() {
        if place_among(signals, group.as_slice()).is_some() {
            return false;
        }
    }
    true
}
