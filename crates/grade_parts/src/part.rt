//! A part of a grade.

ghost use Rattle.std.specs.Prelude.{◌≡◌, ◌+◌, ◌<◌, ◌≤◌, IfOk};
ghost use Rattle.text_bytes.specs.Limits.{most_parts};
ghost use Rattle.plan_rows.specs.Rows.{sites_of};
ghost use Rattle.fault_grade.specs.Run.{cut_at};
ghost use Rattle.grade_parts.specs.Part.{part_grade};

use fault_grade::{Grade, fault_count, first_of, grade_run};
use lot_plan::BoundPlan;
use packed_code::Code;
use std::alloc::Global;
use tester_types::NoMemory;

/// Where the faults of a part begin, of so many parts that share so many faults.
fn cut_at(faults: u32, parts: u16, part: u16) -> u32
    requires faults { faults ≤ 131072 }
    requires some { 0 < parts }
    requires part { part ≤ most_parts }
    ensures { result ≡ cut_at faults parts part }
{
    faults * u32::from(part) / u32::from(parts)
}

/// A part of the grade of the plan's first die, counted from 0: its first failing cycle without a fault, and with each
/// fault of a run of neighbours. It takes one thread. The code is the one that the plan was bound to.
pub fn grade_part(
    alloc: Global,
    code: &Code,
    plan: &BoundPlan,
    parts: u16,
    part: u16,
) -> Result<Grade, NoMemory>
    requires die { 0 < sites_of plan.now.rows }
    requires one_program { plan.now.program ≡ code.now }
    requires some { 0 < parts }
    requires few { parts ≤ most_parts }
    requires part { part < parts }
    ensures { IfOk result (λ grade. grade ≡ part_grade plan.now parts part) }
{
    let count = fault_count(plan);
    let from = cut_at(count, parts, part);
    let to = cut_at(count, parts, part + 1);
    let good = first_of(alloc, code, plan, None)?;
    let faults = grade_run(alloc, code, plan, from, to)?;
    Ok(Grade { good, faults })
}
