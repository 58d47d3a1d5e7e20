//! The measure and the number of cycles of an executive.

ghost use Rattle.std.specs.Prelude.{◌≡◌, ◌+◌, ◌≤◌, min, length, sum_by};
ghost use Rattle.text_bytes.specs.Limits.{most_measure, most_cycles};
ghost use Rattle.packed_code.specs.Count.{capped};
ghost use Rattle.cycle_comp.specs.Counting.{vector_count};
ghost use Rattle.cycle_comp.specs.Writing.{flats_measure};
ghost use Rattle.answers.specs.Answers.{Finds};
ghost use Rattle.cycle_comp.specs.Working.{size_fault, IsSized};

use crate::counting::cycles;
use crate::refusing::exec_refusal;
use burst_exec::Exec;
use flat_tree::FlatList;
use std::alloc::Global;
use stil_ast::{StilKind, StilRefusal};
use text_bytes::{MOST_CYCLES, MOST_MEASURE};

/// The measure of flat trees, but at most one more than the greatest.
fn measure_in(trees: &[FlatList]) -> u64
    ensures { result ≡ min (flats_measure trees.now) (most_measure + 1) }
{
    let mut total: u64 = 0;
    for tree in trees {
        total = (total + tree.measure()).min(MOST_MEASURE as u64 + 1);
    }
    total
}

/// How many vectors a flat tree runs, but at most one more than the most cycles of an executive.
fn tree_cycles(tree: &FlatList) -> u64
    ensures { result ≡ capped (vector_count tree.now) }
{
    cycles(tree)
}

/// How many vectors flat trees run, but at most one more than the most cycles of an executive.
fn cycles_in(trees: &[FlatList]) -> u64
    ensures { result ≡ capped (sum_by vector_count trees.now) }
{
    let mut total: u64 = 0;
    for tree in trees {
        total = (total + tree_cycles(tree)).min(MOST_CYCLES + 1);
    }
    total
}

/// The measure of all executives so far with this one, where it isn't too great, nor the number of this one's cycles.
pub(crate) fn checked_measure(
    alloc: Global,
    signals: u16,
    exec: &Exec,
    before: u64,
) -> Result<u64, StilRefusal>
    requires { before ≤ most_measure }
    ensures { Finds (size_fault before signals exec.now) (IsSized before signals exec.now) result }
{
    let measure = before + measure_in(exec.flats());
    if measure > MOST_MEASURE as u64 {
        return Err(exec_refusal(alloc, exec, StilKind::TooLarge));
    }
    if cycles_in(exec.flats()) > MOST_CYCLES {
        return Err(exec_refusal(alloc, exec, StilKind::TooManyCycles));
    }
    Ok(measure)
}
