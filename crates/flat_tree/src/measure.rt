//! The measure M of a flat tree.

ghost use Rattle.std.specs.Prelude.{◌≡◌, ◌+◌, min};
ghost use Rattle.text_bytes.specs.Limits.{most_measure};
ghost use Rattle.stil_ast.specs.Meaning.Flat.{done, measure};
ghost use Rattle.flat_tree.specs.Slots.{whole_front, wholes_flat};

use crate::flat::{FlatList, Whole};
use text_bytes::MOST_MEASURE;

/// One more than the greatest measure that a text may have.
const TOO_MUCH: u64 = MOST_MEASURE as u64 + 1;

impl FlatList {
    /// Its measure M, but at most one more than all trees of a text may have.
    #[cycle(measure)]
    pub fn measure(&self) -> u64
        ensures { result ≡ min (measure self.now) (most_measure + 1) }
    {
        wholes_measure(self.wholes.as_slice())
    }
}

/// The measure of vectors, loops and saves, as far. Assignments between them would add nothing.
#[cycle(measure)]
fn wholes_measure(wholes: &[Whole]) -> u64
    ensures { result ≡ min (measure (wholes_flat wholes.now)) (most_measure + 1) }
{
    let mut total: u64 = 0;
    for whole in wholes {
        total = (total + whole_measure(whole)).min(TOO_MUCH);
    }
    total
}

/// The measure of one of them, as far.
#[cycle(measure)]
fn whole_measure(whole: &Whole) -> u64
    ensures { result ≡ min (measure (whole_front whole.now done)) (most_measure + 1) }
{
    match whole {
        Whole::Cycle(_, _) => 1,
        Whole::Repeat(_, body) => (2 * body.measure() + 2).min(TOO_MUCH),
        Whole::Save(_, body) => body.measure(),
    }
}
