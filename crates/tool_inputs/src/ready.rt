//! A program and a plan that are read and bound.

ghost use Rattle.std.specs.Prelude.{IfOk, IfErr};
ghost use Rattle.tester_types.specs.Outside.{Loads};
ghost use Rattle.tool_inputs.specs.Inputs.{IsReady, AreRefused};

use crate::inputs::{read_nets, read_plan, read_program};
use crate::refusal::Refusal;
use lot_plan::BoundPlan;
use page_code::Code;
use std::alloc::Global;
use tester_types::Shelf;

/// The code of a program, and a plan that is bound to it.
#[derive(Drop)]
pub struct ReadyLot {
    pub code: Code,
    pub plan: BoundPlan,
}

/// Reads a program, a plan and the netlists that it names, and binds them.
pub fn prepare<F: Shelf>(
    alloc: Global,
    program: &str,
    plan: &str,
    shelf: &mut F,
) -> Result<ReadyLot, Refusal>
    ensures ready { IfOk result (λ lot. IsReady (F.told shelf.old) program.now plan.now lot.code lot.plan) }
    ensures refused { IfErr result (λ r. AreRefused
        (F.told shelf.old) (F.faults shelf.old) (F.faults shelf.new) program.now plan.now r) }
    ensures loads { Loads (F.told shelf.old) (F.faults shelf.old) (F.told shelf.new) (F.faults shelf.new) }
{
    let code = read_program(alloc, program, shelf)?;
    let plan = read_plan(alloc, plan, shelf)?;
    let nets = read_nets(alloc, &plan, shelf)?;
    match plan.bind(alloc, &code, nets) {
        Ok(plan) => Ok(ReadyLot { code, plan }),
        Err(fault) => Err(Refusal::Plan(fault)),
    }
}
