//! The rules on statements that stand before what they do.

ghost use Rattle.std.specs.Prelude.{◌≡◌, ◌++◌, [], map, OnOk};
ghost use Rattle.std.specs.List.{list_any};
ghost use Rattle.stil_ast.specs.Data.Items.{item_of};
ghost use Rattle.stil_ast.specs.Faults.PatternFaults.{same_kind};
ghost use Rattle.flat_tree.specs.Origins.{body_of};
ghost use Rattle.macro_expand.specs.Pairs.{taker_of, hash_front, hashed_in};
ghost use Rattle.macro_expand.specs.Standings.{is_one};
ghost use Rattle.macro_expand.specs.Stepping.{CountsOne};

use crate::assigning::may_walk;
use crate::pairing::Pair;
use crate::standing::{Callee, Standing};
use crate::trouble::Trouble;
use crate::walk::Walk;
use flat_tree::BodyKind;
use std::alloc::AllocError;
use stil_ast::{StilKind, VecItem};

/// One statement more is walked.
#[tactic(auto, using(crate::proofs::PlaceLemmas::ruled_out))]
pub(crate) fn count_one(s: &Standing, line: u32, walk: &mut Walk) -> Result<(), Trouble>
    ensures { CountsOne s.now line walk.old walk.new result }
{
    if !may_walk(walk.count, 1) {
        return Err(s.trouble(StilKind::TooLarge, line));
    }
    walk.count += 1;
    Ok(())
}

/// Whether two kinds of bodies are one.
fn is_same_kind(a: BodyKind, b: BodyKind) -> bool
    ensures { result ≡ same_kind (body_of a) (body_of b) }
{
    match (a, b) {
        (BodyKind::Pattern, BodyKind::Pattern) => true,
        (BodyKind::Macro, BodyKind::Macro) => true,
        (BodyKind::Procedure, BodyKind::Procedure) => true,
        _ => false,
    }
}

/// Whether two names are of one body.
fn is_same(a: Callee, b: Callee) -> bool
    ensures { result ≡ is_one a b }
{
    is_same_kind(a.kind, b.kind) && a.number == b.number
}

/// Whether a body is among those inside which a statement runs.
pub(crate) fn is_running(callee: Callee, running: &[Callee]) -> bool
    ensures { result ≡ list_any (is_one callee) running.now }
{
    for body in running {
        if is_same(callee, *body) {
            return true;
        }
    }
    false
}

/// Puts a signal behind the others, if it gets a `#`.
fn add_taker(pair: Pair, takers: &mut Vec<u16>) -> Result<(), AllocError>
    ensures { OnOk result (takers.new.items ≡ takers.old.items ++ hash_front pair.signal (item_of pair.item) []) }
{
    match pair.item {
        VecItem::Take => {
            takers.push(pair.signal)?;
            Ok(())
        }
        VecItem::Character(_) => Ok(()),
        VecItem::Peek => Ok(()),
    }
}

/// Puts the signals that get a `#` behind the others.
#[tactic(auto, using(crate::proofs::PairLemmas::hash_front_append))]
pub(crate) fn add_takers(pairs: &[Pair], takers: &mut Vec<u16>) -> Result<(), AllocError>
    ensures { OnOk result (takers.new.items ≡ takers.old.items ++ hashed_in (map taker_of pairs.now)) }
{
    for pair in pairs {
        add_taker(*pair, takers)?;
    }
    Ok(())
}
