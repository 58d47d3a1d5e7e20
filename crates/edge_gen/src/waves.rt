//! Which wave of a table each signal of a row has.

ghost use Rattle.std.specs.Prelude.{◌≡◌, IfOk, slice_get};
ghost use Rattle.edge_gen.specs.Signals.{wave_of};
ghost use Rattle.edge_gen.specs.Step.{ArePlaces};

use std::alloc::Global;
use tester_types::{NoMemory, WaveList};

/// For each signal of the row the place of its wave, or a place past all waves where it has none. Signals rise along the row,
/// so the search for the wave of one begins where the last one ended.
pub(crate) fn places(alloc: Global, waves: &WaveList, row: &[u8]) -> Result<Vec<usize>, NoMemory>
    ensures { IfOk result (λ places. ArePlaces waves.now row.now places.items) }
{
    let mut places = Vec::with_capacity(alloc, row.len())?;
    let mut from = 0;
    for (signal, character) in row.iter().enumerate() {
        let (place, next) = place_of(waves, from, signal, *character);
        places.push(place)?;
        from = next;
    }
    Ok(places)
}

/// The place of a signal's wave, or one past all waves where it has none, and where the search for that of a later signal begins.
fn place_of(waves: &WaveList, from: usize, signal: usize, character: u8) -> (usize, usize)
    ensures { slice_get waves.now result.0 ≡ wave_of waves.now signal character }
{
    if character == 0 {
        return (waves.len(), from);
    }
    match waves.search(from, signal, character) {
        Ok(place) => (place, place),
        Err(next) => (waves.len(), next),
    }
}
