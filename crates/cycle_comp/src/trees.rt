//! The instructions of an executive.

ghost use Rattle.std.specs.Prelude.{◌≡◌, None, Some, IfErr, IfOk, List, MatchResult};
ghost use Rattle.stil_ast.specs.Meaning.State.{start_of};
ghost use Rattle.stil_ast.specs.Meaning.ExecutiveData.{Tree};
ghost use Rattle.stil_ast.specs.Faults.CodeFaults.{trees_fault};
ghost use Rattle.stil_ast.specs.declared.fault.StilFault.{StilFault};
ghost use Rattle.cycle_comp.specs.Written.{flats_of, IsWritten, IsFaulty, IsRefusal};
ghost use Rattle.cycle_comp.specs.Writing.{flats_run, flats_measure, Wrote, IsOfTree, AreStopped};
ghost use Rattle.cycle_comp.specs.Passes.{IsExact, flats_written};
ghost use Rattle.answers.specs.declared.short.Short.TheVariants as errors;

use crate::fault::{VectorFault, WriteError};
use crate::state::State;
use crate::trouble::Trouble;
use crate::writing::{Source, write_list};
use flat_tree::FlatList;
use packed_code::{Instr, InstrList, RowList};
use std::alloc::Global;
use wave_tables::WaveSet;

/// The instructions of the flat trees of an executive, which run one after another from no table and no character of so
/// many signals. `first` is the number in the code of the first of its tables. The rows of their vectors are put behind
/// those of the executives before, each once. No loop is unrolled: a loop is its first pass and a Loop over its second
/// one, which all later passes are like, since what a body assigns doesn't depend on what was there.
///
/// The first vector in time that has no table (NoTable), or a character that its table doesn't define (NoWave), refuses.
/// More rows than 32 bits can number are want of memory.
pub fn write(
    alloc: Global,
    tables: &WaveSet,
    first: u16,
    signals: u16,
    trees: &[FlatList],
    rows: &mut RowList,
) -> Result<InstrList, WriteError>
    ensures found { (named : List Tree) → flats_of named ≡ trees.now
        → IfOk result (λ code. (trees_fault tables.now named (start_of signals) ≡ None)
        × IsWritten first signals named code rows.old rows.new) }
    ensures only { (named : List Tree) → flats_of named ≡ trees.now
        → trees_fault tables.now named (start_of signals) ≡ None
        → IfErr result (λ e. e ≡ errors.NoMemory) }
    ensures fault { (named : List Tree) → flats_of named ≡ trees.now
        → IfErr result (IsFaulty tables.now signals named) }
    ensures refused { (named : List Tree) (f : StilFault) → flats_of named ≡ trees.now
        → trees_fault tables.now named (start_of signals) ≡ Some f
        → MatchResult result (λ _. ⊥) (IsRefusal named f) }
{
    let mut code = Vec::new(alloc);
    let source = Source {
        alloc,
        tables,
        first,
    };
    match write_trees(&source, signals, trees, &mut code, rows) {
        Ok(()) => {}
        Err(error) => return Err(error),
    }
    code.push(Instr::Done)?;
    Ok(InstrList::from_vec(code))
}

/// The fault of a tree's vector.
fn of_tree(tree: usize, trouble: Trouble) -> WriteError
    ensures { IsOfTree tree trouble result }
{
    match trouble {
        Trouble::NoMemory => WriteError::NoMemory,
        Trouble::Fault(at) => WriteError::Fault(VectorFault {
            tree,
            place: at.place,
            kind: at.kind,
        }),
    }
}

/// Writes the trees one after another.
fn write_trees(
    source: &Source,
    signals: u16,
    trees: &[FlatList],
    code: &mut Vec<Instr>,
    rows: &mut RowList,
) -> Result<(), WriteError>
    ensures { MatchResult result
        (λ _. Wrote source.now.tables.now source.now.first (flats_run trees.now (start_of signals)).made
        (flats_measure trees.now) code.old.items code.new.items rows.old rows.new
        × IsExact source.now.first (λ entry code. flats_written entry trees.now (start_of signals) code)
        code.old.items code.new.items rows.new)
        (AreStopped source.now.tables.now trees.now (start_of signals)) }
{
    let outside = State::start(source.alloc, 0)?;
    let mut state = State::start(source.alloc, signals)?;
    for number in 0..trees.len() {
        match write_list(source, &trees[number], &outside, &mut state, code, rows) {
            Ok(()) => {}
            Err(trouble) => return Err(of_tree(number, trouble)),
        }
    }
    Ok(())
}
