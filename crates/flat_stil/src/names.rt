//! Names that can stand in double quotes.

ghost use Rattle.std.specs.Prelude.{◌≡◌, [], slice_index_or, take, true};
ghost use Rattle.std.specs.List.{list_all};
ghost use Rattle.flat_parts.specs.FlatText.{name_of};
ghost use Rattle.flat_parts.specs.FlatText.{is_plain, has_plain_names};

use packed_code::{Code, CodeSignal};

/// The name of a signal, empty where there is none.
pub(crate) fn name_at(code: &Code, signal: u16) -> &[u8]
    ensures { result.now ≡ name_of code.now signal }
{
    if signal < code.signals() {
        code.signal_name(signal)
    } else {
        b""
    }
}

/// Whether no byte of a name is a double quote.
fn is_plain(name: &[u8]) -> bool
    ensures { result ≡ is_plain name.now }
{
    name.iter().all(|byte| *byte != b'"')
}

/// Whether the names of signals are plain.
fn are_plain(signals: &[CodeSignal]) -> bool
    ensures { result ≡ list_all (λ signal. is_plain signal.name) signals.now }
{
    for signal in signals {
        if !is_plain(signal.name.as_slice()) {
            return false;
        }
    }
    true
}

/// Whether the names of executives are plain.
fn are_plain_execs(code: &Code) -> bool
    ensures { result ≡ list_all (λ exec. is_plain exec.name) code.now.execs }
{
    for exec in 0..code.execs() {
        if !is_plain(code.exec_name(exec)) {
            return false;
        }
    }
    true
}

/// Whether no name of a code's signals and executives holds a double quote.
pub fn has_plain_names(code: &Code) -> bool
    ensures { result ≡ has_plain_names code.now }
{
    are_plain(code.signal_list()) && are_plain_execs(code)
}
