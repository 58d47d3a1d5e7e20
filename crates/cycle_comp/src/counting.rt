//! How many vectors a flat tree runs.

ghost use Rattle.std.specs.Prelude.{◌≡◌, ◌+◌, min, length};
ghost use Rattle.text_bytes.specs.Limits.{most_cycles};
ghost use Rattle.stil_ast.specs.Meaning.State.{State};
ghost use Rattle.stil_ast.specs.Meaning.Flat.{done, flat_run};
ghost use Rattle.packed_code.specs.Count.{capped};
ghost use Rattle.flat_tree.specs.Items.{item_front};
ghost use Rattle.cycle_comp.specs.Counting.{vector_count};

use flat_tree::{FlatItem, FlatList};
use text_bytes::MOST_CYCLES;

/// How many vectors a flat tree runs, whatever is held and has been set, or one more than the most cycles of an
/// executive where they are more. It takes time in proportion to the tree.
pub fn cycles(tree: &FlatList) -> u64
    ensures { (base s : State) → result ≡ min (length (flat_run tree.now base s).made) (most_cycles + 1) }
{
    list_cycles(tree)
}

/// The same, as a count.
#[cycle(counting)]
pub(crate) fn list_cycles(list: &FlatList) -> u64
    ensures { result ≡ capped (vector_count list.now) }
{
    let mut total: u64 = 0;
    for item in list.steps() {
        total = at_most(total.saturating_add(item_cycles(&item)));
    }
    total
}

/// The count of an item, as far.
#[cycle(counting)]
fn item_cycles(item: &FlatItem<'_>) -> u64
    ensures { result ≡ capped (vector_count (item_front item.now done)) }
{
    match item {
        FlatItem::Cycle(_, _) => 1,
        FlatItem::Repeat(count, body) => at_most(count.saturating_mul(list_cycles(body))),
        FlatItem::Save(_, body) => list_cycles(body),
        _ => 0,
    }
}

/// The number, or one more than the most cycles of an executive where it is above.
fn at_most(cycles: u64) -> u64
    ensures { result ≡ capped cycles }
{
    cycles.min(MOST_CYCLES + 1)
}
