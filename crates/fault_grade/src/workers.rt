//! The grade, by as many workers as are wanted.

ghost use Rattle.std.specs.Prelude.{◌≡◌, ◌+◌, ◌*◌, ◌≤◌, ◌<◌, ℕ, length, IfOk};
ghost use Rattle.std.specs.Thread.{IsSync};
ghost use Rattle.plan_rows.specs.Rows.{sites_of};
ghost use Rattle.fault_grade.specs.Grade.{first_part, nets_in, grade_of};
ghost use Rattle.site_meaning.specs.Part.{Part};
ghost use Rattle.fault_grade.specs.Run.{cut_at, run_of, IsEachRun};

use crate::die::fault_count;
use crate::graded::{Grade, GradeList};
use crate::grading::{first_of, grade_run};
use lot_plan::BoundPlan;
use packed_code::Code;
use std::alloc::Global;
use std::sync::Wait;
use std::thread;
use std::thread::Threads;
use tester_types::{Gate, NoMemory};

/// Where the run of a worker begins, of so many workers who share so many faults.
fn cut_at(faults: u32, workers: u8, worker: u32) -> u32
    requires faults { faults ≤ 131072 }
    requires some { 1 ≤ workers }
    requires worker { worker ≤ 16 }
    ensures { result ≡ cut_at faults workers worker }
{
    faults * worker / u32::from(workers)
}

/// The work of one worker: passes the gate, and tries the faults of its run.
fn work<R: Threads + Wait + Sync, G: Gate>(
    rt: &R,
    alloc: Global,
    code: &Code,
    plan: &BoundPlan,
    gate: &G,
    workers: u8,
    worker: usize,
) -> Result<GradeList, NoMemory>
    requires die { 0 < sites_of plan.now.rows }
    requires one_program { plan.now.program ≡ code.now }
    requires few { workers ≤ 16 }
    requires worker { worker < workers }
    ensures { IfOk result (λ list. list ≡ run_of (first_part plan.now)
        (cut_at (2 * nets_in (first_part plan.now)) workers worker)
        (cut_at (2 * nets_in (first_part plan.now)) workers (worker + 1))) }
{
    gate.pass(rt, worker as u8, 0);
    let faults = fault_count(plan);
    let from = cut_at(faults, workers, worker as u32);
    let to = cut_at(faults, workers, worker as u32 + 1);
    grade_run(alloc, code, plan, from, to)
}

/// The runs of all workers, each in a thread of its own as far as threads can be made.
fn work_all<R: Threads + Wait + Sync, G: Gate>(
    rt: &R,
    alloc: Global,
    code: &Code,
    plan: &BoundPlan,
    gate: &G,
    workers: u8,
) -> Result<Vec<Result<GradeList, NoMemory>>, NoMemory>
    requires die { 0 < sites_of plan.now.rows }
    requires one_program { plan.now.program ≡ code.now }
    requires few { workers ≤ 16 }
    ensures count { IfOk result (λ runs. length runs.items ≡ workers) }
    ensures each { IfOk result (λ runs. IsEachRun (first_part plan.now) workers runs.items) }
{
    let runs = thread::map_indices(
        rt,
        alloc,
        usize::from(workers),
        &|worker: usize| -> Result<GradeList, NoMemory>
            requires { IsSync R.row × IsSync G.row × (0 < sites_of plan.now.rows) × (plan.now.program ≡ code.now)
                × (workers ≤ 16) × (worker < workers) }
            ensures { IfOk result (λ list. list ≡ run_of (first_part plan.entry.now)
                (cut_at (2 * nets_in (first_part plan.entry.now)) workers worker)
                (cut_at (2 * nets_in (first_part plan.entry.now)) workers (worker + 1))) }
        { work(rt, alloc, code, plan, gate, workers, worker) },
    )?;
    Ok(runs)
}

/// The runs of all workers, joined in their order.
fn joined(
    alloc: Global,
    runs: &[Result<GradeList, NoMemory>],
    faults: usize,
) -> Result<GradeList, NoMemory>
    ensures { IfOk result (λ list. (part : Part) (workers : ℕ) → 1 ≤ workers → length runs.now ≡ workers
        → IsEachRun part workers runs.now → list ≡ run_of part 0 (2 * nets_in part)) }
{
    let mut all = Vec::with_capacity(alloc, faults)?;
    for run in runs {
        match run {
            Ok(list) => all.extend_from_slice(list.as_slice())?,
            Err(_) => return Err(NoMemory),
        }
    }
    Ok(GradeList::from_vec(all))
}

/// The grade of the plan's first die: its first failing cycle without a fault, and with each single stuck-at fault. It
/// is the same for every number of workers, into which the faults are cut as runs of neighbours, each in a thread of its
/// own as far as threads can be made. A worker passes the gate once, with its number as the site and batch 0. The code
/// is the one that the plan was bound to.
pub fn grade<R: Threads + Wait + Sync, G: Gate>(
    rt: &R,
    alloc: Global,
    code: &Code,
    plan: &BoundPlan,
    workers: u8,
    gate: &G,
) -> Result<Grade, NoMemory>
    requires die { 0 < sites_of plan.now.rows }
    requires one_program { plan.now.program ≡ code.now }
    requires some { 1 ≤ workers }
    requires few { workers ≤ 16 }
    ensures { IfOk result (λ grade. grade ≡ grade_of plan.now) }
{
    let good = first_of(alloc, code, plan, None)?;
    let runs = work_all(rt, alloc, code, plan, gate, workers)?;
    let faults = joined(alloc, runs.as_slice(), fault_count(plan) as usize)?;
    Ok(Grade { good, faults })
}
