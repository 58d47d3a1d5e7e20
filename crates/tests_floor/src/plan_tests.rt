//! Plans that threads share, as they are read and as they are bound.

use crate::programs::{code, read_netlist};
use bench_net::Netlist;
use lot_plan::{BoundPlan, Plan};
use plan_rows::{first_refused, no_fault_in_plan, one_record_list};
use std::alloc::Global;
use std::sync::Arc;
use std::test::*;
use std::thread;
use tester_types::Verdict;

/// Two dies of site 3 with a netlist each, and a bin.
const TWO_DIES: &[u8] = b"lot,10,2,4,,\ndie,3,d,gate,,\ndie,3,e,gate2,,\nbin,fail,0,9,,\n";

/// A netlist for each file of a plan: an inverter of A and Z.
fn netlists(alloc: Global, files: usize) -> Result<Vec<Arc<Netlist>>, Fail> {
    let mut nets = Vec::new(alloc);
    for _ in 0..files {
        nets.push(read_netlist(alloc, b"INPUT(A)\nOUTPUT(Z)\nZ = NOT(A)\n")?)?;
    }
    Ok(nets)
}

/// The plan above, bound to a program of an input A and an output Z.
fn bound(alloc: Global) -> Result<BoundPlan, Fail> {
    let code = code(alloc, &[(0, b'A'), (1, b'Z')], &[0, 0])?;
    let plan = Plan::read(alloc, TWO_DIES)?;
    let nets = netlists(alloc, plan.files().len())?;
    if nets.len() != plan.files().len() {
        return Err(Fail::from("a netlist for each file"));
    }
    Ok(plan.bind(alloc, &code, nets)?)
}

#[test]
fn two_threads_read_one_plan(rt: HostRuntime) -> Result<(), Fail> {
    let plan = Plan::read(rt.alloc(), TWO_DIES)?;
    let (sites, files) = thread::join(&rt, || plan.sites(), || plan.files().len());
    assert!(rt; (sites, files) == (4, 2));
    Ok(())
}

#[test]
fn two_threads_read_one_bound_plan(rt: HostRuntime) -> Result<(), Fail> {
    let plan = bound(rt.alloc())?;
    let (first, bin) = thread::join(&rt, || plan.first(), || plan.bin(&Verdict::Fail(0)));
    assert!(rt; first == Some((3, 0)) && bin == 9);
    Ok(())
}

#[test]
fn laws_of_rows_may_be_called() {
    first_refused();
    one_record_list();
    no_fault_in_plan();
}
