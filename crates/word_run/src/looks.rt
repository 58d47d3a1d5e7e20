//! The windows that the looks of a moment open and close.
ghost use Rattle.std.specs.Prelude.{◌≡◌, ◌≢◌, ℕ, ◌<◌, None, length, replicate, slice_index_or};
ghost use Rattle.strobe_check.specs.Step.{opened, looks_of, window_after};

use strobe_check::opened;
use tester_types::Look;

/// The window of a signal; none past the last signal.
pub(crate) fn window_at(windows: &[Option<Look>], signal: usize) -> Option<Look>
    ensures { result ≡ slice_index_or windows.now signal None }
{
    if signal < windows.len() {
        windows[signal]
    } else {
        None
    }
}

/// Closes all windows.
pub(crate) fn close_all(windows: &mut Vec<Option<Look>>)
    ensures { windows.new.items ≡ replicate (length windows.old.items) None }
{
    windows.as_mut_slice().fill(None);
}

/// A look at a signal closes its window, and perhaps opens another.
fn put_window(windows: &mut Vec<Option<Look>>, signal: u16, look: Look)
    ensures count { length windows.new.items ≡ length windows.old.items }
    ensures here { signal < length windows.old.items → slice_index_or windows.new.items signal None ≡ opened look }
    ensures others { (s : ℕ) → s ≢ signal
        → slice_index_or windows.new.items s None ≡ slice_index_or windows.old.items s None }
{
    if usize::from(signal) < windows.len() {
        windows[usize::from(signal)] = opened(look);
    }
}

/// The windows that are open behind the looks of a moment.
pub(crate) fn put_windows(windows: &mut Vec<Option<Look>>, looks: &[(u16, Look)])
    ensures count { length windows.new.items ≡ length windows.old.items }
    ensures each { (s : ℕ) → s < length windows.old.items → slice_index_or windows.new.items s None
        ≡ window_after (slice_index_or windows.old.items s None) (looks_of s looks.now) }
{
    for (signal, look) in looks {
        put_window(windows, *signal, *look);
    }
}
