//! Tries that have ended.

ghost use Rattle.std.specs.Prelude.{◌≡◌, ◌+◌, ◌<◌, ◌&&◌, ℕ, Some, nat_lt};
ghost use Rattle.die_sim.specs.Socket.{Told};
ghost use Rattle.site_meaning.specs.Polls.{Step, ended_now, unloaded, is_ordered};
ghost use Rattle.site_meaning.specs.Records.{is_fail};
ghost use Rattle.site_run.specs.Seat.{running_of, IsSeen, IsMove, contact_of, without_cycles};
ghost use Rattle.site_run.specs.Site.{IsOutcome, IsOutcomeOf};
ghost use Rattle.site_run.specs.declared.trial.Outcome.TheVariants as Outcome;

use crate::run::{Move, Run};
use std::alloc::Global;
use tester_types::{FailList, Trial, Verdict};

/// The try of this number, which has run and ended so.
pub(crate) fn ended(run: Run, number: u8, verdict: Verdict) -> Trial
    requires seen { IsSeen run.at.bench.checker }
    ensures { (told : Told) → result ≡ ended_now number (running_of told run) verdict }
{
    let cycles = run.at.number;
    let at = run.at;
    let bench = at.bench;
    let checker = bench.checker;
    let fails = checker.total();
    Trial {
        number,
        cycles,
        fails,
        kept: checker.kept(),
        verdict,
    }
}

/// The try of this number, which ended without a cycle.
pub(crate) fn without_cycles(alloc: Global, number: u8, verdict: Verdict) -> Trial
    ensures { result ≡ without_cycles number verdict }
{
    Trial {
        number,
        cycles: 0,
        fails: 0,
        kept: FailList::from_vec(Vec::new(alloc)),
        verdict,
    }
}

/// Whether the verdict is a fail, so that the die is tried again while tries are left.
fn is_fail(verdict: &Verdict) -> bool
    ensures { result ≡ is_fail verdict.now }
{
    match verdict {
        Verdict::Pass => false,
        Verdict::Fail(_) => true,
        Verdict::Stopped(_, _) => false,
        Verdict::Contact(_) => false,
    }
}

/// Whether a die is tried again that was tried so often before and now has this verdict.
pub(crate) fn is_tried_again(verdict: &Verdict, before: usize, tries: u8) -> bool
    requires { before < tries }
    ensures { result ≡ (is_fail verdict.now && nat_lt (before + 1) tries) }
{
    is_fail(verdict) && before + 1 < usize::from(tries)
}

/// What comes of a try in a poll.
#[derive(Drop)]
pub(crate) enum Outcome {
    Goes(Run),
    Ends(Trial),
}

/// What comes of the try of this number, which made this move. Contact that is lost at the instant 0 is lost as at a load.
pub(crate) fn outcome_of(alloc: Global, run: Run, number: u8, moved: Move) -> Outcome
    requires seen { IsSeen run.at.bench.checker }
    ensures on { (told : Told) (step : Step) → (contact_of moved ≡ Some 0 → ⊥) → IsMove number told run moved step
        → IsOutcome told result step }
    ensures of { IsOutcomeOf run moved result }
    ensures none { contact_of moved ≡ Some 0 → result ≡ Outcome.Ends (unloaded number) }
{
    match moved {
        Move::More => Outcome::Goes(run),
        Move::Next => Outcome::Goes(run),
        Move::Ends(Verdict::Contact(0)) => {
            Outcome::Ends(without_cycles(alloc, number, Verdict::Contact(0)))
        }
        Move::Ends(verdict) => Outcome::Ends(ended(run, number, verdict)),
    }
}

/// Whether the plan's order stands before this batch.
pub(crate) fn is_ordered(order: Option<u64>, batch: u64) -> bool
    ensures { result ≡ is_ordered order batch }
{
    match order {
        None => false,
        Some(before) => before == batch,
    }
}
