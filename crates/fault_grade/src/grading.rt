//! Faults of the first die on one thread.

ghost use Rattle.std.specs.Prelude.{◌≡◌, ◌*◌, ◌≤◌, ◌<◌, IfOk, IfSome, option_to_list};
ghost use Rattle.plan_rows.specs.Rows.{sites_of};
ghost use Rattle.fault_grade.specs.Grade.{first, first_part, nets_in};
ghost use Rattle.fault_grade.specs.Run.{run_of};
ghost use Rattle.lot_plan.specs.Bound.{image_of};
ghost use Rattle.lot_plan.specs.Skews.{site_skews};
ghost use Rattle.cycle_run.specs.declared.setup.Until.TheVariants as until;
ghost use Rattle.cycle_run.specs.Lent.{HoldsMoments};
ghost use Rattle.cycle_run.specs.Setup.{IsSetUp};
ghost use Rattle.fault_grade.specs.Grade.{first_site};
ghost use Rattle.fault_grade.specs.Search.{bare};

use crate::die::{first_image, first_skews};
use crate::faults::image_with;
use crate::graded::GradeList;
use crate::run::{try_image, try_run};
use cycle_run::{Lent, Setup, Until};
use die_sim::{DieImage, StuckAt};
use lot_plan::BoundPlan;
use packed_code::Code;
use std::alloc::Global;
use tester_types::NoMemory;

/// The moments that the cycles have at the first die's site.
fn first_lent(alloc: Global, code: &Code, plan: &BoundPlan) -> Result<Lent, NoMemory>
    requires die { 0 < sites_of plan.now.rows }
    requires one_program { plan.now.program ≡ code.now }
    ensures { IfOk result (λ lent. HoldsMoments code.now (site_skews plan.now (first_site plan.now)) lent) }
{
    let _sites = plan.sites();
    let _signals = code.signals();
    Lent::make(alloc, code, first_skews(plan))
}

/// What a try of the first die is played with, with the faults of this image in place of its own.
fn set_up<'a>(
    code: &'a Code,
    plan: &'a BoundPlan,
    lent: Option<&'a Lent>,
    image: &'a DieImage,
) -> Setup<'a>
    requires die { 0 < sites_of plan.now.rows }
    requires one_program { plan.now.program ≡ code.now }
    requires lent { IfSome lent (λ moments. HoldsMoments code.now (site_skews plan.now (first_site plan.now))
        moments.now) }
    requires image { bare image.now ≡ bare (image_of plan.now (first_site plan.now) 0 1) }
    ensures set_up { IsSetUp result }
    ensures code { result.code.now ≡ code.now }
    ensures image { result.image.now ≡ image.now }
    ensures skews { result.skews.now ≡ site_skews plan.now (first_site plan.now) }
    ensures until { result.until ≡ until.FirstFail }
{
    let _sites = plan.sites();
    let _signals = code.signals();
    Setup {
        code,
        image,
        skews: first_skews(plan),
        until: Until::FirstFail,
        lent,
    }
}

/// The cycle of the first fail of a try of the plan's first die in which this fault alone is active, or no fault; none
/// where no fail comes. The code is the one that the plan was bound to.
pub fn first_of(
    alloc: Global,
    code: &Code,
    plan: &BoundPlan,
    fault: Option<StuckAt>,
) -> Result<Option<u64>, NoMemory>
    requires die { 0 < sites_of plan.now.rows }
    requires one_program { plan.now.program ≡ code.now }
    requires net { IfSome fault (λ f. f.net < nets_in (first_part plan.now)) }
    ensures { IfOk result (λ cycle. cycle ≡ first (first_part plan.now) 0 (option_to_list fault)) }
{
    let _sites = plan.sites();
    let _signals = code.signals();
    let lent = first_lent(alloc, code, plan)?;
    let image = image_with(alloc, first_image(plan), fault)?;
    let setup = set_up(code, plan, Some(&lent), &image);
    try_image(alloc, &setup)
}

/// The grades of the first die's faults with these numbers, the last left out.
fn run_with<'a>(
    alloc: Global,
    code: &'a Code,
    plan: &'a BoundPlan,
    from: u32,
    to: u32,
) -> Result<GradeList, NoMemory>
    requires die { 0 < sites_of plan.now.rows }
    requires one_program { plan.now.program ≡ code.now }
    requires order { from ≤ to }
    requires within { to ≤ 2 * nets_in (first_part plan.now) }
    ensures { IfOk result (λ list. list ≡ run_of (first_part plan.now) from to) }
{
    let _sites = plan.sites();
    let _signals = code.signals();
    let setup = set_up(code, plan, None, first_image(plan));
    try_run(alloc, &setup, from, to)
}

/// The grades of the faults of the plan's first die from one number up to another, the last left out: fault k is net
/// k / 2 stuck at k % 2. The code is the one that the plan was bound to.
pub fn grade_run(
    alloc: Global,
    code: &Code,
    plan: &BoundPlan,
    from: u32,
    to: u32,
) -> Result<GradeList, NoMemory>
    requires die { 0 < sites_of plan.now.rows }
    requires one_program { plan.now.program ≡ code.now }
    requires order { from ≤ to }
    requires within { to ≤ 2 * nets_in (first_part plan.now) }
    ensures { IfOk result (λ list. list ≡ run_of (first_part plan.now) from to) }
{
    run_with(alloc, code, plan, from, to)
}
