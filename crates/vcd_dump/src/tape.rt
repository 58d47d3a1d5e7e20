//! The tape of the first try of a site's first die.

ghost use Rattle.std.specs.Prelude.{◌≡◌, ◌<◌, ◌≤◌, [], Err, length, IfOk, OnOk};
ghost use Rattle.plan_rows.specs.Rows.{sites_of, dies_at};
ghost use Rattle.lot_plan.specs.Bound.{image_of};
ghost use Rattle.lot_plan.specs.Skews.{site_skews};
ghost use Rattle.cycle_run.specs.declared.setup.Until.TheVariants as until;
ghost use Rattle.cycle_run.specs.Setup.{IsSetUp};
ghost use Rattle.cycle_run.specs.Seat.{StartsSo};
ghost use Rattle.vcd_dump.specs.Recording.{recording_told};
ghost use Rattle.vcd_dump.specs.Taken.{tape_of, vars_of, drives_in, most_drives};
ghost use Rattle.vcd_text.specs.Sound.{IsSound};
ghost use Rattle.vcd_dump.specs.declared.fault.TapeFault.TheVariants as fault;

use crate::execs::{Way, play_execs};
use crate::fault::TapeFault;
use crate::recorder::Recorder;
use cycle_run::{Setup, Until, first_standing, loaded};
use die_sim::Tape;
use edge_gen::{HELD_SCHEDULES, Schedules};
use lot_plan::BoundPlan;
use packed_code::Code;
use std::alloc::Global;
use tester_types::NoMemory;

/// What the first try of a site's first die is played with.
fn set_up<'a>(code: &'a Code, plan: &'a BoundPlan, site: u8) -> Setup<'a>
    requires site { site < sites_of plan.now.rows }
    requires die { 0 < length (dies_at site plan.now.rows) }
    requires one_program { plan.now.program ≡ code.now }
    ensures set_up { IsSetUp result }
    ensures code { result.code.now ≡ code.now }
    ensures image { result.image.now ≡ image_of plan.now site 0 1 }
    ensures skews { result.skews.now ≡ site_skews plan.now site }
    ensures until { result.until ≡ until.End }
{
    let _bound = plan.sites();
    let _conditions = code.signals();
    Setup {
        code,
        image: plan.image(site, 0, 1),
        skews: plan.skews(site),
        until: Until::End,
        lent: None,
    }
}

/// A try before its first executive.
fn started(alloc: Global, setup: &Setup) -> Result<Way, NoMemory>
    requires { IsSetUp setup.now }
    ensures starts { IfOk result (λ way. StartsSo setup.now 0 way.schedules (recording_told way.recorder) way.at) }
    ensures calls { IfOk result (λ way. way.recorder.calls ≡ []) }
{
    let die = loaded(alloc, setup.image)?;
    let recorder = Recorder::new(alloc, die)?;
    let schedules = Schedules::new(alloc, HELD_SCHEDULES)?;
    let at = first_standing(alloc, setup, 0)?;
    Ok(Way {
        at,
        schedules,
        recorder,
    })
}

/// The drive calls of the first try of a site's first die, as the plan has it.
pub fn tape_of(alloc: Global, code: &Code, plan: &BoundPlan, site: u8) -> Result<Tape, TapeFault>
    requires site { site < sites_of plan.now.rows }
    requires die { 0 < length (dies_at site plan.now.rows) }
    requires one_program { plan.now.program ≡ code.now }
    ensures calls { IfOk result (λ tape. tape.calls ≡ tape_of plan.now site) }
    ensures sound { IfOk result (λ tape. IsSound (vars_of plan.now site) tape.calls) }
    ensures few { OnOk result (drives_in (tape_of plan.now site) ≤ most_drives) }
    ensures too_long { result ≡ Err fault.TapeTooLong → most_drives < drives_in (tape_of plan.now site) }
{
    let _bound = plan.sites();
    let _conditions = code.signals();
    let setup = set_up(code, plan, site);
    let mut way = started(alloc, &setup)?;
    let order = plan.stop(site, 0, 1);
    play_execs(&setup, &mut way, plan.batch(), order)?;
    way.recorder.finish()
}
