//! The faults of a die by their numbers, and images that have them.

ghost use Rattle.std.specs.Prelude.{◌≡◌, ◌-◌, ◌<◌, ◌≤◌, length, map, IfOk, IfSome, option_to_list};
ghost use Rattle.std.specs.List.{range_with_len};
ghost use Rattle.fault_grade.specs.Run.{fault_at};

use die_sim::{DieImage, FaultList, StuckAt};
use std::alloc::Global;
use std::sync::Arc;
use tester_types::NoMemory;

/// The fault of a number: each net is stuck at 0, and then at 1.
pub(crate) fn fault_at(number: u32) -> StuckAt
    ensures { result ≡ fault_at number }
{
    StuckAt {
        net: number / 2,
        value: number % 2 == 1,
    }
}

/// The faults of these numbers, the last left out.
pub(crate) fn faults_between(alloc: Global, from: u32, to: u32) -> Result<Vec<StuckAt>, NoMemory>
    requires { from ≤ to }
    ensures { IfOk result (λ faults. faults.items ≡ map fault_at (range_with_len from (to - from))) }
{
    let mut faults = Vec::with_capacity(alloc, (to - from) as usize)?;
    for number in from..to {
        faults.push(fault_at(number))?;
    }
    Ok(faults)
}

/// The list of this fault, if there is one.
fn fault_list(alloc: Global, fault: Option<StuckAt>) -> Result<FaultList, NoMemory>
    ensures { IfOk result (λ list. list ≡ option_to_list fault) }
{
    let mut faults = Vec::with_capacity(alloc, 1)?;
    if let Some(fault) = fault {
        faults.push(fault)?;
    }
    Ok(FaultList::from_vec(faults))
}

/// An image with this fault, if there is one, in place of its own.
pub(crate) fn image_with(
    alloc: Global,
    base: &DieImage,
    fault: Option<StuckAt>,
) -> Result<DieImage, NoMemory>
    requires { IfSome fault (λ f. f.net < length base.now.circuit.net.drivers) }
    ensures { IfOk result (λ image. image ≡ record base.now { faults = option_to_list fault }) }
{
    let faults = fault_list(alloc, fault)?;
    Ok(DieImage {
        net: Arc::try_clone(&base.net)?,
        bind: Arc::try_clone(&base.bind)?,
        faults,
    })
}
