//! The cells of scan chains that fails name.

ghost use Rattle.std.specs.Prelude.{◌≡◌, ◌==◌, ◌<◌, length};
ghost use Rattle.std.specs.List.{find};
ghost use Rattle.std.specs.Option.{option_copied};
ghost use Rattle.tester_types.specs.Outside.{Prints};
ghost use Rattle.datalog.specs.DatalogText.{chain_at, cell_in, cell_of, cell_words};

use packed_code::{Code, CodeChain};
use tester_types::{Fail, Piece, Sink, SinkFault, put_each};

/// Puts the cell that a fail names, if it names one.
pub(crate) fn put_cell<K: Sink>(sink: &mut K, code: &Code, fail: &Fail) -> Result<(), SinkFault>
    ensures { Prints (K.told sink.old) (K.faults sink.old) (cell_words (cell_of code.now fail.now)) result
        (K.told sink.new) (K.faults sink.new) }
{
    match chain_at(code, fail.exec, fail.signal) {
        Some(chain) => put_cell_in(sink, fail.mark, chain),
        None => Ok(()),
    }
}

/// Puts the cell of a chain that a mark means, if it means one.
pub(crate) fn put_cell_in<K: Sink>(
    sink: &mut K,
    mark: u32,
    chain: &CodeChain,
) -> Result<(), SinkFault>
    ensures { Prints (K.told sink.old) (K.faults sink.old) (cell_words (cell_in mark chain.now)) result
        (K.told sink.new) (K.faults sink.new) }
{
    match chain.cells.marked(chain.length as usize, mark) {
        Some(cell) => put_names(sink, chain.name.as_slice(), cell.as_slice()),
        None => Ok(()),
    }
}

/// Puts the names of a chain and a cell.
fn put_names<'a, K: Sink>(sink: &mut K, chain: &'a [u8], cell: &'a [u8]) -> Result<(), SinkFault>
    ensures { Prints (K.told sink.old) (K.faults sink.old)
        (cell_words (Some (record { chain = chain.now; name = cell.now }))) result
        (K.told sink.new) (K.faults sink.new) }
{
    let words = [
        Piece::Text(b" "),
        Piece::Name(chain),
        Piece::Text(b" "),
        Piece::Name(cell),
    ];
    put_each(sink, &words)
}

/// The first chain of an executive whose scan-out signal this is.
fn chain_at(code: &Code, exec: u16, signal: u16) -> Option<&CodeChain>
    ensures { option_copied result ≡ chain_at code.now exec signal }
{
    if exec < code.execs() {
        first_chain(code.chains(exec).as_slice(), signal)
    } else {
        None
    }
}

/// The first of the chains whose scan-out signal this is.
fn first_chain(chains: &[CodeChain], signal: u16) -> Option<&CodeChain>
    ensures { option_copied result ≡ find (λ chain. chain.out == signal) chains.now }
{
    for chain in chains {
        if chain.out == signal {
            return Some(chain);
        }
    }
    None
}
