//! The signals of an assignment, each with its item of data.

ghost use Rattle.std.specs.Prelude.{◌≡◌, ◌==◌, ◌++◌, ℕ, List, [], ◌∷◌, drop, length, map, replicate, option_map, OnOk};
ghost use Rattle.stil_ast.specs.Data.Items.{item_of, items_of, run_length, first_item};
ghost use Rattle.stil_ast.specs.Meaning.Statements.{Item};
ghost use Rattle.stil_ast.specs.Meaning.Dealing.{spread};
ghost use Rattle.macro_expand.specs.Pairs.{taker_of, paired, spread_by};

use std::alloc::AllocError;
use stil_ast::{ItemRun, VecItem};

/// A signal, and the item of data that it takes.
#[derive(Clone, Copy, Debug)]
pub(crate) struct Pair {
    pub(crate) signal: u16,
    pub(crate) item: VecItem,
}

/// Whether runs stand for so many items.
pub(crate) fn has_length(runs: &[ItemRun], count: usize) -> bool
    ensures { result ≡ (run_length runs.now == count) }
{
    let mut left = count;
    for run in runs {
        if left < run.times as usize {
            return false;
        }
        left -= run.times as usize;
    }
    left == 0
}

/// The first item of runs.
fn first_item(runs: &[ItemRun]) -> Option<VecItem>
    ensures { result ≡ first_item runs.now }
{
    for run in runs {
        if run.times != 0 {
            return Some(run.item);
        }
    }
    None
}

/// The one item that runs stand for, if they stand for one; `#` or `%` then stands for all signals.
#[tactic(auto, using(crate::proofs::PairLemmas::spread_lone))]
fn lone_item(runs: &[ItemRun]) -> Option<VecItem>
    ensures { (signals : List ℕ) → spread signals (items_of runs.now)
        ≡ spread_by signals (items_of runs.now) (option_map item_of result) }
{
    if has_length(runs, 1) {
        first_item(runs)
    } else {
        None
    }
}

/// Puts signals behind the pairs that are there, each with this item, as long as there are both.
fn pair_run(signals: &[u16], run: ItemRun, pairs: &mut Vec<Pair>) -> Result<(), AllocError>
    ensures { OnOk result ((rest : List Item) →
        map taker_of pairs.new.items ++ paired (drop (length pairs.new.items) signals.now) rest
        ≡ map taker_of pairs.old.items
        ++ paired (drop (length pairs.old.items) signals.now) (replicate run.times (item_of run.item) ++ rest)) }
{
    for _ in 0..run.times {
        match signals.get(pairs.len()) {
            Some(signal) => pairs.push(Pair {
                signal: *signal,
                item: run.item,
            })?,
            None => return Ok(()),
        }
    }
    Ok(())
}

/// Signals with the items of runs, as long as there are both.
#[tactic(auto, using(crate::proofs::PairLemmas::paired_nil))]
fn pair_runs(signals: &[u16], runs: &[ItemRun], pairs: &mut Vec<Pair>) -> Result<(), AllocError>
    requires { pairs.old.items ≡ [] }
    ensures { OnOk result (map taker_of pairs.new.items ≡ paired signals.now (items_of runs.now)) }
{
    for run in runs {
        if pairs.len() == signals.len() {
            return Ok(());
        }
        pair_run(signals, *run, pairs)?;
    }
    Ok(())
}

/// The signals of an assignment with the items of its data; one `#` or `%` alone stands for all signals.
pub(crate) fn pair_up(
    signals: &[u16],
    runs: &[ItemRun],
    pairs: &mut Vec<Pair>,
) -> Result<(), AllocError>
    ensures { OnOk result (map taker_of pairs.new.items ≡ paired signals.now (spread signals.now (items_of runs.now))) }
{
    pairs.clear();
    match lone_item(runs) {
        Some(VecItem::Take) => pair_all(signals, VecItem::Take, pairs),
        Some(VecItem::Peek) => pair_all(signals, VecItem::Peek, pairs),
        Some(VecItem::Character(_)) => pair_runs(signals, runs, pairs),
        None => pair_runs(signals, runs, pairs),
    }
}

/// Signals that all have the same item.
fn pair_all(signals: &[u16], item: VecItem, pairs: &mut Vec<Pair>) -> Result<(), AllocError>
    requires { pairs.old.items ≡ [] }
    ensures { OnOk result (map taker_of pairs.new.items
        ≡ paired signals.now (map (λ (_ : ℕ). item_of item) signals.now)) }
{
    for signal in signals {
        pairs.push(Pair {
            signal: *signal,
            item,
        })?;
    }
    Ok(())
}

/// Whether as many items as signals are there, or one `#` or `%` for all.
#[tactic(auto, using(crate::proofs::PairLemmas::fits_lone, crate::proofs::PairLemmas::fits_runs))]
pub(crate) fn width_fits(signals: &[u16], runs: &[ItemRun]) -> bool
    ensures { result ≡ (length (spread signals.now (items_of runs.now)) == length signals.now) }
{
    match lone_item(runs) {
        Some(VecItem::Take) => true,
        Some(VecItem::Peek) => true,
        Some(VecItem::Character(_)) => has_length(runs, signals.len()),
        None => has_length(runs, signals.len()),
    }
}
