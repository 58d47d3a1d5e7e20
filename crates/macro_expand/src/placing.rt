//! An assignment whose signals are known.

ghost use Rattle.std.specs.Prelude.{◌≡◌, ◌+◌, ◌∷◌, [], true, length, map};
ghost use Rattle.stil_ast.specs.Data.Items.{items_of};
ghost use Rattle.stil_ast.specs.Meaning.Dealing.{spread};
ghost use Rattle.stil_ast.specs.Meaning.Resolved.{Scope};
ghost use Rattle.stil_ast.specs.Faults.AssignmentFaults.{may_walk, hash_misplaced, data_there};
ghost use Rattle.macro_expand.specs.Pairs.{taker_of, paired};
ghost use Rattle.macro_expand.specs.Placing.{assign_of, placed};
ghost use Rattle.macro_expand.specs.Standings.{standing_in};
ghost use Rattle.macro_expand.specs.Stepping.{WritesOr};

use crate::arguments::Arguments;
use crate::dealing::{all_find, deal, has_hash, is_again};
use crate::pairing::{Pair, pair_up, width_fits};
use crate::signal_set::SignalSet;
use crate::standing::Standing;
use crate::trouble::Trouble;
use crate::walk::Walk;
use stil_ast::{ItemRun, StilKind};

/// Whether a `#` may not stand there: in a Loop of the same body, or for a signal that has one in this Shift.
#[tactic(auto, using(crate::proofs::PairLemmas::any_hash_runs, crate::proofs::PairLemmas::takers_paired))]
fn is_misplaced(
    s: &Standing,
    signals: &[u16],
    runs: &[ItemRun],
    pairs: &[Pair],
    before: &SignalSet,
) -> bool
    requires { map taker_of pairs.now ≡ paired signals.now (spread signals.now (items_of runs.now)) }
    ensures { (sc : Scope)
        → result ≡ hash_misplaced (standing_in sc s.now) (assign_of signals.now runs.now) before.now }
{
    if s.in_loop && has_hash(runs) {
        return true;
    }
    s.in_shift && is_again(pairs, before)
}

/// Whether each `#` and `%` finds a character; without a pass it needs none.
#[tactic(auto, using(crate::proofs::PairLemmas::all_there_paired))]
fn is_there(
    s: &Standing,
    signals: &[u16],
    runs: &[ItemRun],
    pairs: &[Pair],
    args: &Arguments,
) -> bool
    requires { map taker_of pairs.now ≡ paired signals.now (spread signals.now (items_of runs.now)) }
    ensures { (sc : Scope) → result ≡ data_there (standing_in sc s.now) (assign_of signals.now runs.now) args.now }
{
    if s.without_pass {
        return true;
    }
    all_find(pairs, args)
}

/// An assignment of V or C behind the rules on its reference and on the limit: the form of `#`, the width, the data. Its
/// signals get what it says.
pub(crate) fn place(
    s: &Standing,
    line: u32,
    signals: &[u16],
    runs: &[ItemRun],
    pairs: &mut Vec<Pair>,
    walk: &mut Walk,
) -> Result<(), Trouble>
    requires { may_walk (walk.old.count + length signals.now) ≡ true }
    ensures { (sc : Scope) → WritesOr sc.titles
        (placed sc (standing_in sc s.now) line (assign_of signals.now runs.now))
        (assign_of signals.now runs.now ∷ []) walk.old walk.new result }
{
    pair_up(signals, runs, pairs)?;
    if is_misplaced(s, signals, runs, pairs.as_slice(), &walk.hashes) {
        return Err(s.trouble(StilKind::ShiftForm, line));
    }
    if !width_fits(signals, runs) {
        return Err(s.trouble(StilKind::Width, line));
    }
    if !is_there(s, signals, runs, pairs.as_slice(), &walk.args) {
        return Err(s.trouble(StilKind::NoData, line));
    }
    deal(pairs.as_slice(), s.in_shift, walk)?;
    walk.count += signals.len() as u32;
    Ok(())
}
