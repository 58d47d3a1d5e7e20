//! The signals of a code.

ghost use Rattle.std.specs.Prelude.{◌≡◌, IfOk, map};
ghost use Rattle.stil_ast.specs.Meaning.Signals.{Names};
ghost use Rattle.signal_groups.specs.Table.{table_of};
ghost use Rattle.cycle_comp.specs.Compiled.{signal_of};

use packed_code::{CodeSignal, CodeSignalList};
use signal_groups::SignalTable;
use std::alloc::{AllocError, Global};
use tester_types::Text;

/// The signals in declared order.
pub(crate) fn signal_list(
    alloc: Global,
    signals: &SignalTable,
) -> Result<CodeSignalList, AllocError>
    ensures { (names : Names) → signals.now ≡ table_of names
        → IfOk result (λ list. list ≡ map signal_of names.signals) }
{
    let mut list = Vec::new(alloc);
    for signal in 0..signals.count() {
        list.push(CodeSignal {
            name: Text::from_slice(alloc, signals.name(signal))?,
            direction: signals.direction(signal),
        })?;
    }
    Ok(CodeSignalList::from_vec(list))
}
