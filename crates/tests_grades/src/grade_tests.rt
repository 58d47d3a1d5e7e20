//! Known grades, and workers that wait for each other.

ghost use Rattle.std.specs.Prelude.{◌≡◌, ◌≤◌, ◌<◌, length, IfOk};
ghost use Rattle.text_bytes.specs.Limits.{most_bytes};
ghost use Rattle.plan_rows.specs.Rows.{sites_of};

use bench_net::read;
use die_sim::StuckAt;
use fault_grade::{Grade, Graded, fault_count, first_of, grade, grade_run};
use lot_plan::{BoundPlan, Plan};
use page_code::{Code, load};
use std::alloc::Global;
use std::sync::atomic::{AtomicU64, Ordering};
use std::sync::{Arc, Wait};
use std::test::Fail;
use std::thread::{Threads, yield_now};
use tester_types::{Gate, OpenGate};

/// How often a gate looks before it lets a worker through that no other one came for.
const LOOKS: u32 = 10_000_000;

/// A program: the signals A, C and Y; a table w of 100 ns, where A is driven down or
/// up at 0, C falls at 0, rises at 20 ns and falls at 60 ns, and Y is wanted high or low at 40 ns; the rows 0 P H and
/// 1 P L; and an executive of both rows, each once.
static BOTH: &[u8] = &[
    0xD7, 0x53, 0x54, 0x50, 1, 0, 0, 0, 3, 0, 0, 1, 0, b'A', 0, 1, 0, b'C', 1, 1, 0, b'Y', 1, 0, 1,
    0, b'w', 0x00, 0xE1, 0xF5, 0x05, 0, 0, 0, 0, 5, 0, 0, 0, 0, 0, b'0', 1, 0, 0, 0, 0, 0, 0, 0, 0,
    1, 0, 0, b'1', 1, 0, 0, 0, 0, 0, 0, 0, 0, 2, 1, 0, b'P', 3, 0, 0, 0, 0, 0, 0, 0, 0, 1, 0x00,
    0x2D, 0x31, 0x01, 0, 0, 0, 0, 2, 0x00, 0x87, 0x93, 0x03, 0, 0, 0, 0, 1, 2, 0, b'H', 1, 0x00,
    0x5A, 0x62, 0x02, 0, 0, 0, 0, 7, 2, 0, b'L', 1, 0x00, 0x5A, 0x62, 0x02, 0, 0, 0, 0, 6, 2, 0, 0,
    0, b'0', b'P', b'H', b'1', b'P', b'L', 1, 0, 0, 0, 0, 0, 3, 0, 0, 0, 1, 0, 0, 0, 0, 0, 0, 0, 0,
    0, 0, 0, 1, 0, 0, 0, 1, 0, 0, 0, 1, 0, 0, 0, 0, 0, 0, 0, 1, 0, 0, 0, 4, 0, 0, 0, 0, 0, 0, 0, 0,
    0, 0, 0, 0, 0, 0, 0,
];

/// An inverter, and a plan of it.
const INVERTER: &[u8] = b"INPUT(A)\nOUTPUT(Y)\nY = NOT(A)\n";

const PLAN: &[u8] = b"lot,256,1,8,,\nbind,C,-,,,\ndie,0,d0,inv.bench,,\n";

/// The program that these bytes save.
fn code_of(alloc: Global, bytes: &[u8]) -> Result<Code, Fail> {
    match load(alloc, bytes) {
        Ok(code) => Ok(code),
        Err(_) => Err("the bytes are a program".into()),
    }
}

/// The plan of a text with one file, bound to a program and a netlist.
fn bound(alloc: Global, code: &Code, text: &[u8], net: &[u8]) -> Result<BoundPlan, Fail>
    requires text { length text.now ≤ most_bytes }
    requires net { length net.now ≤ most_bytes }
    ensures program { IfOk result (λ plan. plan.program ≡ code.now) }
    ensures die { IfOk result (λ plan. 0 < sites_of plan.rows) }
{
    let Ok(plan) = Plan::read(alloc, text) else {
        return Err("the text is a plan".into());
    };
    if plan.files().len() != 1 {
        return Err("there is one file".into());
    }
    let Ok(net) = read(alloc, net) else {
        return Err("there is a netlist".into());
    };
    let mut nets = Vec::with_capacity(alloc, 1)?;
    nets.push(Arc::new(alloc, net)?)?;
    let Ok(plan) = plan.bind(alloc, code, nets) else {
        return Err("the plan fits".into());
    };
    if plan.sites() == 0 {
        return Err("there is a die".into());
    }
    Ok(plan)
}

/// The grade of a netlist under a plan by this program, with so many workers.
fn graded_by<R: Threads + Wait + Sync, G: Gate>(
    rt: &R,
    alloc: Global,
    code: &Code,
    text: &[u8],
    net: &[u8],
    workers: u8,
    gate: &G,
) -> Result<Grade, Fail>
    requires text { length text.now ≤ most_bytes }
    requires net { length net.now ≤ most_bytes }
    requires some { 1 ≤ workers }
    requires few { workers ≤ 16 }
{
    let plan = bound(alloc, code, text, net)?;
    Ok(grade(rt, alloc, code, &plan, workers, gate)?)
}

/// The grade of a netlist under a plan by the program of these bytes, with so many workers.
fn graded<R: Threads + Wait + Sync, G: Gate>(
    rt: &R,
    alloc: Global,
    bytes: &[u8],
    text: &[u8],
    net: &[u8],
    workers: u8,
    gate: &G,
) -> Result<Grade, Fail>
    requires text { length text.now ≤ most_bytes }
    requires net { length net.now ≤ most_bytes }
    requires some { 1 ≤ workers }
    requires few { workers ≤ 16 }
{
    let code = code_of(alloc, bytes)?;
    graded_by(rt, alloc, &code, text, net, workers, gate)
}

/// Whether faults have these first failing cycles, one by one.
fn have_firsts(faults: &[Graded], firsts: &[Option<u64>]) -> bool {
    faults.len() == firsts.len()
        && faults
            .iter()
            .zip(firsts.iter())
            .all(|(fault, first)| fault.first == *first)
}

/// Whether the die passes without a fault, and its faults have these first failing cycles.
fn has_firsts(grade: &Grade, firsts: &[Option<u64>]) -> bool {
    grade.good.is_none() && have_firsts(grade.faults.as_slice(), firsts)
}

#[test]
fn each_fault_of_an_inverter_is_found(rt: HostRuntime) -> Result<(), Fail> {
    let found = [Some(1), Some(0), Some(0), Some(1)];
    for workers in [1u8, 3, 16] {
        let all = graded(&rt, rt.alloc(), BOTH, PLAN, INVERTER, workers, &OpenGate)?;
        assert!(rt; has_firsts(&all, &found));
    }
    Ok(())
}

/// A gate that holds each of two workers until both have come.
#[derive(Drop)]
struct MeetingGate {
    came: AtomicU64,
    /// How many it let through before.
    late: AtomicU64,
}

/// Whether a word comes to 2 while it is looked at.
fn comes_to_two(word: &AtomicU64) -> bool {
    for _ in 0..LOOKS {
        if word.load(Ordering::SeqCst) >= 2 {
            return true;
        }
        yield_now();
    }
    false
}

impl Gate for MeetingGate {
    fn pass<R: Threads + Wait + Sync>(&self, _rt: &R, _site: u8, _batch: u64) {
        self.came.fetch_add(1, Ordering::SeqCst);
        if !comes_to_two(&self.came) {
            self.late.fetch_add(1, Ordering::SeqCst);
        }
    }
}

#[test]
fn two_workers_run_at_the_same_time(rt: HostRuntime) -> Result<(), Fail> {
    let gate = MeetingGate {
        came: AtomicU64::new(0),
        late: AtomicU64::new(0),
    };
    let _all = graded(&rt, rt.alloc(), BOTH, PLAN, INVERTER, 2, &gate)?;
    assert_eq!(rt; gate.late.load(Ordering::SeqCst), 0);
    Ok(())
}

/// Whether Y stuck at 1 is found in cycle 1, and A stuck at 1 and Y stuck at 0 in cycle 0, each call by itself.
fn parts_are_found(alloc: Global, code: &Code, plan: &BoundPlan) -> Result<bool, Fail>
    requires program { plan.now.program ≡ code.now }
    requires die { 0 < sites_of plan.now.rows }
{
    if fault_count(plan) != 4 {
        return Err("there are four faults".into());
    }
    let stuck = StuckAt {
        net: 1,
        value: true,
    };
    let first = first_of(alloc, code, plan, Some(stuck))?;
    let run = grade_run(alloc, code, plan, 1, 3)?;
    Ok(first == Some(1) && have_firsts(run.as_slice(), &[Some(0), Some(0)]))
}

#[test]
fn one_fault_and_a_run_are_graded_alone(rt: HostRuntime) -> Result<(), Fail> {
    let code = code_of(rt.alloc(), BOTH)?;
    let plan = bound(rt.alloc(), &code, PLAN, INVERTER)?;
    assert!(rt; parts_are_found(rt.alloc(), &code, &plan)?);
    Ok(())
}
