//! What a lot comes to in all: how many looks failed, and how many dies each bin has.

ghost use Rattle.std.specs.Prelude.{◌≡◌, ◌+◌, ◌<◌, ◌≤◌, All, length, min, sum_by};
ghost use Rattle.text_bytes.specs.Limits.{most_plan_sites};
ghost use Rattle.tester_types.specs.Outside.{Prints};
ghost use Rattle.tester_types.specs.Records.{records_of};
ghost use Rattle.datalog.specs.DatalogText.{bins_of, totals_text};
ghost use Rattle.datalog.specs.Printable.{AreSound};
ghost use Rattle.datalog.specs.Summary.{most_fails, trial_fails, record_fails, fails_among};

use crate::totals::{counts_of, put_totals};
use floor_core::BookState;
use lot_plan::BoundPlan;
use tester_types::{Record, RecordList, Sink, SinkFault, Trial};

/// Puts how many dies each bin has, for each bin that a die of a book of sound records has. It takes no memory.
pub fn print_totals<K: Sink>(
    plan: &BoundPlan,
    book: &BookState,
    sink: &mut K,
) -> Result<(), SinkFault>
    requires sound { AreSound plan.now book.now }
    ensures { Prints (K.told sink.old) (K.faults sink.old)
        (totals_text (bins_of plan.now (records_of book.now))) result (K.told sink.new) (K.faults sink.new) }
{
    let _sites = plan.sites();
    put_sums(sink, plan, book.sites())
}

/// Puts how many dies each bin has, for each bin that a die has.
pub(crate) fn put_sums<K: Sink>(
    sink: &mut K,
    plan: &BoundPlan,
    sites: &[RecordList],
) -> Result<(), SinkFault>
    requires few { length sites.now ≤ most_plan_sites }
    requires tried { All (All (λ entry. 0 < length entry.trials)) (records_of sites.now) }
    ensures { Prints (K.told sink.old) (K.faults sink.old)
        (totals_text (bins_of plan.now (records_of sites.now))) result (K.told sink.new) (K.faults sink.new) }
{
    put_totals(sink, &counts_of(plan, sites))
}

/// How many looks failed in all tries of a lot, up to the largest number of 128 bits.
pub fn fail_count(book: &BookState) -> u128
    ensures { result ≡ fails_among (records_of book.now) }
{
    fails_in(book.sites())
}

/// How many looks failed in all tries of sites.
fn fails_in(sites: &[RecordList]) -> u128
    ensures { result ≡ fails_among (records_of sites.now) }
{
    let mut fails = 0;
    for entries in sites {
        fails = with_records(fails, entries.as_slice());
    }
    fails
}

/// So many fails and those of records.
fn with_records(fails: u128, entries: &[Record]) -> u128
    ensures { result ≡ min (fails + sum_by record_fails entries.now) most_fails }
{
    let mut fails = fails;
    for entry in entries {
        fails = with_trials(fails, entry.trials.as_slice());
    }
    fails
}

/// So many fails and those of tries.
fn with_trials(fails: u128, trials: &[Trial]) -> u128
    ensures { result ≡ min (fails + sum_by trial_fails trials.now) most_fails }
{
    let mut fails = fails;
    for trial in trials {
        fails = fails.saturating_add(u128::from(trial.fails));
    }
    fails
}
