//! The executives of a try, one after another, up to the first with a fail or the order of the plan.

ghost use Rattle.std.specs.Prelude.{◌≡◌, ℕ, ◌+◌, ◌≤◌, ◌<◌, true, length, take, IfOk};
ghost use Rattle.packed_code.specs.Cycles.{cycles_of};
ghost use Rattle.site_meaning.specs.Trials.{execs_of};
ghost use Rattle.cycle_run.specs.declared.setup.Until.TheVariants as until;
ghost use Rattle.cycle_run.specs.Setup.{IsSetUp, code_in, stand_in};
ghost use Rattle.vcd_dump.specs.Play.{allowed, order_behind, calls_from, going_of, CanGoOn, StandsBefore, PlaysSo, ComesTo, RecordsSo};

use crate::recorder::Recorder;
use cycle_run::{Setup, Standing, Stop, play_at};
use edge_gen::Schedules;
use packed_code::walk;
use tester_types::NoMemory;

/// A try whose drives are recorded, between two cycles.
#[derive(Drop)]
pub(crate) struct Way {
    pub at: Standing,
    pub schedules: Schedules,
    pub recorder: Recorder,
}

/// What comes behind an executive.
#[derive(Clone, Copy)]
pub(crate) enum After {
    /// There are too many drives.
    Over,
    /// The try ends.
    Ends,
    /// It goes on, with this order of the plan.
    Goes(Option<u64>),
}

/// How many of so many cycles run before the order of the plan.
fn allowed(batch: u32, order: Option<u64>, cycles: u64) -> u64
    ensures exact { result ≡ allowed batch order cycles }
    ensures few { result ≤ cycles }
{
    match order {
        None => cycles,
        Some(before) => before.saturating_mul(u64::from(batch)).min(cycles),
    }
}

/// The order of the plan behind so many cycles of an executive.
fn order_behind(batch: u32, order: Option<u64>, cycles: u64) -> Option<u64>
    requires some { 1 ≤ batch }
    requires few { cycles ≤ 281474976710656 }
    ensures { result ≡ order_behind batch order cycles }
{
    match order {
        None => None,
        Some(before) => {
            let batches = (cycles + u64::from(batch - 1)) / u64::from(batch);
            Some(before.saturating_sub(batches))
        }
    }
}

/// Plays so many cycles of an executive. Answers whether it did; else there are too many drives.
fn play_some(setup: &Setup, exec: u16, way: &mut Way, many: u64) -> Result<bool, NoMemory>
    requires set_up { IsSetUp setup.now }
    requires until { setup.now.until ≡ until.End }
    requires exec { exec < length (code_in setup.now).execs }
    requires some { many ≤ length (cycles_of (code_in setup.now) exec) }
    requires can { CanGoOn setup.now many way.old }
    ensures plays { IfOk result (λ whole. PlaysSo setup.now exec (take many (cycles_of (code_in setup.now) exec)) whole
        way.old way.new) }
    ensures goes_on { IfOk result (λ whole. whole ≡ true → (more : ℕ) → CanGoOn setup.now (more + many) way.old
        → CanGoOn setup.now more way.new) }
{
    let mut walk = walk(setup.code, exec);
    match play_at(
        setup,
        &mut walk,
        &mut way.at,
        &mut way.schedules,
        &mut way.recorder,
        exec,
        many,
    ) {
        Ok(_) => Ok(true),
        Err(Stop::Contact(_)) => {
            if way.recorder.is_over() {
                Ok(false)
            } else {
                Err(NoMemory)
            }
        }
        Err(Stop::NoMemory) => Err(NoMemory),
    }
}

/// Plays an executive.
fn play_exec(
    setup: &Setup,
    exec: u16,
    way: &mut Way,
    batch: u32,
    order: Option<u64>,
) -> Result<After, NoMemory>
    requires set_up { IsSetUp setup.now }
    requires until { setup.now.until ≡ until.End }
    requires exec { exec < length (code_in setup.now).execs }
    requires some { 1 ≤ batch }
    requires before { StandsBefore setup.now exec way.old }
    ensures { IfOk result (λ after. ComesTo setup.now batch exec order (cycles_of (code_in setup.now) exec)
        way.old way.new after) }
{
    let _conditions = setup.code.signals();
    let cycles = setup.code.cycles(exec);
    let many = allowed(batch, order, cycles);
    if !play_some(setup, exec, way, many)? {
        return Ok(After::Over);
    }
    if many < cycles {
        return Ok(After::Ends);
    }
    if way.at.bench.checker.total() > 0 {
        return Ok(After::Ends);
    }
    Ok(After::Goes(order_behind(batch, order, cycles)))
}

/// Plays the executives of a try. Answers whether all of its drives were recorded; else there are too many.
pub(crate) fn play_execs(
    setup: &Setup,
    way: &mut Way,
    batch: u32,
    order: Option<u64>,
) -> Result<bool, NoMemory>
    requires set_up { IsSetUp setup.now }
    requires until { setup.now.until ≡ until.End }
    requires some { 1 ≤ batch }
    requires before { StandsBefore setup.now 0 way.old }
    ensures { IfOk result (λ whole. RecordsSo whole
        (calls_from (stand_in setup.now) batch 0 (going_of way.old) order (execs_of (code_in setup.now)))
        way.old way.new) }
{
    let mut order = order;
    for exec in 0..setup.code.execs() {
        match play_exec(setup, exec, way, batch, order) {
            Ok(After::Over) => return Ok(false),
            Ok(After::Ends) => return Ok(true),
            Ok(After::Goes(next)) => order = next,
            Err(fault) => return Err(fault),
        }
    }
    Ok(true)
}
