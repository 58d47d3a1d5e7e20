//! Data of an assignment (IEEE 1450-1999, clause 21).

use std::alloc::{AllocError, Global};
use std::marker::Model;
use text_bytes::MOST_REPEATS;

/// One item of data.
#[derive(Clone, Copy, Debug, PartialEq, Eq)]
pub enum VecItem {
    /// A waveform character, an ASCII letter or digit.
    Character(u8),
    /// `#`: the next character of the signal's argument.
    Take,
    /// `%`: the same character, which stays there.
    Peek,
}

/// An item, and how often it stands there.
#[derive(Clone, Copy, Debug, PartialEq, Eq)]
pub struct ItemRun {
    pub item: VecItem,
    pub times: u32,
}

/// The data of an assignment. It keeps runs, so that `\r1000000 0` takes no more room than it does in the text; a
/// contract sees the list of the items. No run is longer than 2^20.
#[derive(Debug, Drop)]
pub struct VecText {
    runs: Vec<ItemRun>,
}

impl Model for VecText {
    ghost use Rattle.std.specs.Prelude.{List};
    ghost use Rattle.stil_ast.specs.Meaning.Statements.{Item};
    ghost use Rattle.stil_ast.specs.Data.Items.{items_of, KeepRepeats};

    ghost Value = { List Item };

    ghost view = { λ t. items_of t.runs.items };

    ghost invariant = { λ t. KeepRepeats t.runs.items };
}

ghost use Rattle.std.specs.Prelude.{◌≡◌, ◌≤◌, ◌++◌, [], true, replicate, IfOk, OnOk, OnErr, if◌then◌else◌};
ghost use Rattle.text_bytes.specs.Limits.{most_repeats};
ghost use Rattle.stil_ast.specs.Data.Items.{item_of, items_of, KeepRepeats};

impl VecText {
    /// No items, with room for so many runs.
    pub fn with_capacity(alloc: Global, count: usize) -> Result<VecText, AllocError>
        ensures { IfOk result (λ text. text ≡ []) }
    {
        let runs = Vec::with_capacity(alloc, count)?;
        Ok(VecText { runs })
    }

    /// Adds an item that stands so often. A run of the same item before it becomes longer, as long as it may be. At an
    /// error nothing changes.
    pub fn push(&mut self, item: VecItem, times: u32) -> Result<(), AllocError>
        requires { times ≤ most_repeats }
        ensures added { OnOk result (self.new ≡ self.old ++ replicate times (item_of item)) }
        ensures kept { OnErr result (self.new ≡ self.old) }
    {
        if !lengthen(&mut self.runs, item, times) {
            self.runs.push(ItemRun { item, times })?;
        }
        Ok(())
    }

    /// Takes all items away, and keeps the memory.
    pub fn clear(&mut self)
        ensures { self.new ≡ [] }
    {
        self.runs.clear();
    }

    /// The data of these runs.
    pub fn from_vec(runs: Vec<ItemRun>) -> VecText
        requires { KeepRepeats runs.items }
        ensures { result ≡ items_of runs.items }
    {
        VecText { runs }
    }

    /// Gives its runs back.
    pub fn into_vec(self) -> Vec<ItemRun>
        ensures items { items_of result.items ≡ self }
        ensures repeats { KeepRepeats result.items }
    {
        self.runs
    }

    /// Its runs.
    pub fn as_slice(&self) -> &[ItemRun]
        ensures items { items_of result.now ≡ self.now }
        ensures repeats { KeepRepeats result.now }
    {
        self.runs.as_slice()
    }
}

/// Whether two items are one.
fn is_same(a: VecItem, b: VecItem) -> bool
    ensures { result ≡ true → item_of a ≡ item_of b }
{
    match (a, b) {
        (VecItem::Character(first), VecItem::Character(second)) => first == second,
        (VecItem::Take, VecItem::Take) => true,
        (VecItem::Peek, VecItem::Peek) => true,
        _ => false,
    }
}

/// Makes the last run longer by so many items, where it is of this item and stays short enough, and says whether it did.
fn lengthen(runs: &mut Vec<ItemRun>, item: VecItem, times: u32) -> bool
    requires repeats { KeepRepeats runs.old.items }
    requires times { times ≤ most_repeats }
    ensures items { items_of runs.new.items ≡ (if result
        then items_of runs.old.items ++ replicate times (item_of item) else items_of runs.old.items) }
    ensures repeats { KeepRepeats runs.new.items }
{
    let count = runs.len();
    if count == 0 {
        return false;
    }
    let last = runs[count - 1];
    if !is_same(last.item, item) {
        return false;
    }
    if u64::from(last.times) + u64::from(times) > MOST_REPEATS {
        return false;
    }
    runs[count - 1] = ItemRun {
        item: last.item,
        times: last.times + times,
    };
    true
}
