//! What signals get from the data of an assignment.

ghost use Rattle.std.specs.Prelude.{◌≡◌, ◌++◌, ◌∷◌, [], map, OnOk};
ghost use Rattle.std.specs.List.{list_any};
ghost use Rattle.stil_ast.specs.Data.Items.{item_of};
ghost use Rattle.stil_ast.specs.Meaning.Arguments.{next_entry, next_taken};
ghost use Rattle.stil_ast.specs.Meaning.Statements.{hash};
ghost use Rattle.stil_ast.specs.Meaning.Dealing.{deal_item, gift_of, has_signal, is_hash};
ghost use Rattle.stil_ast.specs.Meaning.Flattening.{gifts_front};
ghost use Rattle.macro_expand.specs.Pairs.{has_take, taker_of, hash_front, hashed_in, finds, all_find, dealt_to};
ghost use Rattle.macro_expand.specs.Walks.{Puts, Deals};

use crate::arguments::Arguments;
use crate::pairing::Pair;
use crate::signal_set::SignalSet;
use crate::walk::Walk;
use flat_tree::FlatList;
use std::alloc::AllocError;
use stil_ast::{ItemRun, VecItem};

/// Whether an item is `#`.
fn is_hash(item: VecItem) -> bool
    ensures { result ≡ is_hash (item_of item) }
{
    matches!(item, VecItem::Take)
}

/// Whether a run has a `#`.
fn is_hash_run(run: ItemRun) -> bool
    ensures { result ≡ has_take run }
{
    run.times != 0 && is_hash(run.item)
}

/// Whether there is a `#` among the items of runs.
pub(crate) fn has_hash(runs: &[ItemRun]) -> bool
    ensures { result ≡ list_any has_take runs.now }
{
    for run in runs {
        if is_hash_run(*run) {
            return true;
        }
    }
    false
}

/// Whether a signal that gets a `#` is among these already.
#[tactic(auto, using(crate::proofs::PairLemmas::any_hash_front))]
pub(crate) fn is_again(pairs: &[Pair], before: &SignalSet) -> bool
    ensures { result ≡ list_any (has_signal before.now) (hashed_in (map taker_of pairs.now)) }
{
    for pair in pairs {
        if is_hash(pair.item) && before.has(pair.signal) {
            return true;
        }
    }
    false
}

/// Whether an item that needs a character of the argument finds one.
fn finds(pair: Pair, args: &Arguments) -> bool
    ensures { result ≡ finds args.now (taker_of pair) }
{
    match pair.item {
        VecItem::Character(_) => true,
        VecItem::Take => args.next(pair.signal).is_some(),
        VecItem::Peek => args.next(pair.signal).is_some(),
    }
}

/// Whether each item finds its character.
pub(crate) fn all_find(pairs: &[Pair], args: &Arguments) -> bool
    ensures { result ≡ all_find args.now (map taker_of pairs.now) }
{
    for pair in pairs {
        if !finds(*pair, args) {
            return false;
        }
    }
    true
}

/// Writes the next character of a signal's argument, if there is one.
#[tactic(auto, using(crate::proofs::FlatLemmas::puts_back, crate::proofs::FlatLemmas::puts_character))]
fn put_next(signal: u16, args: &Arguments, out: &mut FlatList) -> Result<(), AllocError>
    ensures { OnOk result (Puts out.old (gifts_front (gift_of signal (next_entry args.now signal))) out.new) }
{
    match args.next(signal) {
        None => Ok(()),
        Some(None) => {
            out.push_back(signal)?;
            Ok(())
        }
        Some(Some(character)) => {
            out.push_character(signal, character)?;
            Ok(())
        }
    }
}

/// Takes the next character of a signal's argument, if there is one. The number of those that were taken is below that
/// of what was walked, and so never near the end of its range, where this answers want of memory.
fn take_next(signal: u16, args: &mut Arguments) -> Result<(), AllocError>
    ensures { OnOk result (args.new ≡ next_taken args.old signal) }
{
    if args.taken(signal) == u32::MAX {
        return Err(AllocError);
    }
    args.take(signal);
    Ok(())
}

/// A signal gets a `#`.
fn take(signal: u16, in_shift: bool, walk: &mut Walk) -> Result<(), AllocError>
    ensures { OnOk result (Deals in_shift (deal_item hash signal walk.old.args) (signal ∷ []) walk.old walk.new) }
{
    put_next(signal, &walk.args, &mut walk.out)?;
    take_next(signal, &mut walk.args)?;
    walk.taken.add(signal)?;
    if in_shift {
        walk.hashes.add(signal)?;
    }
    Ok(())
}

/// A signal gets its item.
#[tactic(auto, using(crate::proofs::FlatLemmas::puts_character, crate::proofs::FlatLemmas::append_none))]
fn deal_one(pair: Pair, in_shift: bool, walk: &mut Walk) -> Result<(), AllocError>
    ensures { OnOk result (Deals in_shift (deal_item (item_of pair.item) pair.signal walk.old.args)
        (hash_front pair.signal (item_of pair.item) []) walk.old walk.new) }
{
    match pair.item {
        VecItem::Character(character) => {
            walk.out.push_character(pair.signal, character)?;
            Ok(())
        }
        VecItem::Take => take(pair.signal, in_shift, walk),
        VecItem::Peek => {
            put_next(pair.signal, &walk.args, &mut walk.out)?;
            Ok(())
        }
    }
}

/// Signals get their items, one after another.
#[tactic(auto, using(crate::proofs::DealLemmas::dealing_step, crate::proofs::DealLemmas::dealing_ends))]
pub(crate) fn deal(pairs: &[Pair], in_shift: bool, walk: &mut Walk) -> Result<(), AllocError>
    ensures { OnOk result (Deals in_shift (dealt_to (map taker_of pairs.now) walk.old.args)
        (hashed_in (map taker_of pairs.now)) walk.old walk.new) }
{
    for pair in pairs {
        deal_one(*pair, in_shift, walk)?;
    }
    Ok(())
}
