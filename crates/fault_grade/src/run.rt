//! A run of faults, 64 dies at a time.

ghost use Rattle.std.specs.Prelude.{◌≡◌, ℕ, ◌+◌, ◌*◌, ◌-◌, ◌≤◌, ◌++◌, ℤ, None, List, length, map, IfOk, OnOk, slice_index_or};
ghost use Rattle.std.specs.List.{range_with_len};
ghost use Rattle.packed_code.specs.Program.{Program};
ghost use Rattle.die_sim.specs.Die.{Image};
ghost use Rattle.cycle_run.specs.declared.setup.Until.TheVariants as until;
ghost use Rattle.cycle_run.specs.Setup.{IsSetUp, code_in};
ghost use Rattle.fault_grade.specs.Run.{fault_at};
ghost use Rattle.word_run.specs.First.{first_on, with_fault};
ghost use Rattle.fault_grade.specs.Search.{first_in, run_on};

use crate::faults::{fault_at, faults_between};
use crate::graded::{GradeList, Graded};
use crate::search::first_cycle_of;
use cycle_run::{Setup, loaded};
use edge_gen::{HELD_SCHEDULES, Schedules};
use std::alloc::Global;
use tester_types::NoMemory;
use word_run::first_cycles;

/// The first failing cycle of a die with the faults of its image.
pub(crate) fn try_image(alloc: Global, setup: &Setup) -> Result<Option<u64>, NoMemory>
    requires set_up { IsSetUp setup.now }
    requires until { setup.now.until ≡ until.FirstFail }
    ensures { IfOk result (λ first. first ≡ first_in setup.now) }
{
    let mut socket = loaded(alloc, setup.image)?;
    let mut schedules = Schedules::new(alloc, HELD_SCHEDULES)?;
    first_cycle_of(alloc, setup, &mut schedules, &mut socket)
}

/// The first failing cycle of a place.
fn first_at(firsts: &[Option<u64>], place: usize) -> Option<u64>
    ensures { result ≡ slice_index_or firsts.now place None }
{
    if place < firsts.len() {
        firsts[place]
    } else {
        None
    }
}

/// Appends the grades of the faults of these numbers, the last left out, by their first failing cycles.
fn append_graded(
    list: &mut Vec<Graded>,
    firsts: &[Option<u64>],
    from: u32,
    to: u32,
) -> Result<(), NoMemory>
    requires { from ≤ to }
    ensures { OnOk result ((code : Program) (skews : List ℤ) (image : Image)
        → firsts.now ≡ map (λ fault. first_on code skews (with_fault image fault))
        (map fault_at (range_with_len from (to - from)))
        → list.new.items ≡ list.old.items ++ run_on code skews image from to) }
{
    for number in from..to {
        let fault = fault_at(number);
        list.push(Graded {
            net: fault.net,
            value: fault.value,
            first: first_at(firsts, (number - from) as usize),
        })?;
    }
    Ok(())
}

/// Appends the grades of the faults of these numbers, which are 64 at most, the last left out.
fn append_run(
    alloc: Global,
    setup: &Setup,
    from: u32,
    to: u32,
    list: &mut Vec<Graded>,
) -> Result<(), NoMemory>
    requires set_up { IsSetUp setup.now }
    requires order { from ≤ to }
    requires few { to ≤ from + 64 }
    requires within { to ≤ 2 * length setup.now.image.now.circuit.net.names }
    ensures { OnOk result (list.new.items ≡ list.old.items
        ++ run_on (code_in setup.now) setup.now.skews.now setup.now.image.now from to) }
{
    let faults = faults_between(alloc, from, to)?;
    let firsts = first_cycles(alloc, setup, faults.as_slice())?;
    append_graded(list, firsts.as_slice(), from, to)
}

/// The grades of the faults of these numbers, the last left out, of a die with the netlist and the binding of the setup's
/// image.
pub(crate) fn try_run(
    alloc: Global,
    setup: &Setup,
    from: u32,
    to: u32,
) -> Result<GradeList, NoMemory>
    requires set_up { IsSetUp setup.now }
    requires order { from ≤ to }
    requires within { to ≤ 2 * length setup.now.image.now.circuit.net.names }
    ensures { IfOk result (λ list. list ≡ run_on (code_in setup.now) setup.now.skews.now setup.now.image.now from to) }
{
    let mut list = Vec::with_capacity(alloc, (to - from) as usize)?;
    let mut next = from;
    while next < to {
        let upto = next + (to - next).min(64);
        append_run(alloc, setup, next, upto, &mut list)?;
        next = upto;
    }
    Ok(GradeList::from_vec(list))
}
