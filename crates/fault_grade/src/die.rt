//! The die of a plan that is graded: the first of its site, which the first die record names.

ghost use Rattle.std.specs.Prelude.{◌≡◌, ◌*◌, ◌≤◌, ◌<◌, length};
ghost use Rattle.plan_rows.specs.Rows.{sites_of, dies_at};
ghost use Rattle.lot_plan.specs.Bound.{image_of};
ghost use Rattle.lot_plan.specs.Skews.{site_skews};
ghost use Rattle.site_meaning.specs.Part.{circuit_in};
ghost use Rattle.fault_grade.specs.Grade.{first_site, first_part, nets_in};

use bench_net::Netlist;
use die_sim::DieImage;
use lot_plan::BoundPlan;

/// The site of the first die record.
fn first_site(plan: &BoundPlan) -> u8
    requires { 0 < sites_of plan.now.rows }
    ensures site { result ≡ first_site plan.now }
    ensures within { result < sites_of plan.now.rows }
    ensures die { 0 < length (dies_at result plan.now.rows) }
{
    match plan.first() {
        Some((site, _)) => site,
        None => unreachable!(),
    }
}

/// The image of the first die for its first try.
pub(crate) fn first_image(plan: &BoundPlan) -> &DieImage
    requires { 0 < sites_of plan.now.rows }
    ensures { result.now ≡ image_of plan.now (first_site plan.now) 0 1 }
{
    let _sites = plan.sites();
    plan.image(first_site(plan), 0, 1)
}

/// The netlist of the plan's first die, whose faults are graded.
pub fn first_net(plan: &BoundPlan) -> &Netlist
    requires { 0 < sites_of plan.now.rows }
    ensures { result.now ≡ circuit_in (first_part plan.now) 0 }
{
    &first_image(plan).net
}

/// How many single stuck-at faults the plan's first die has: two of each net.
pub fn fault_count(plan: &BoundPlan) -> u32
    requires { 0 < sites_of plan.now.rows }
    ensures count { result ≡ 2 * nets_in (first_part plan.now) }
    ensures few { result ≤ 131072 }
{
    first_image(plan).net.nets() * 2
}

/// The skews at its site.
pub(crate) fn first_skews(plan: &BoundPlan) -> &[i64]
    requires { 0 < sites_of plan.now.rows }
    ensures { result.now ≡ site_skews plan.now (first_site plan.now) }
{
    plan.skews(first_site(plan))
}
