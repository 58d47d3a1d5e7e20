//! Signals that have got a `#`.

ghost use Rattle.std.specs.Prelude.{◌≡◌, ◌≤◌, ℕ, ◌++◌, ◌∷◌, [], true, false, length, slice_index_or, OnOk};
ghost use Rattle.stil_ast.specs.Meaning.Dealing.{has_signal};
ghost use Rattle.macro_expand.specs.Marks.{AreMarked};

use std::alloc::{AllocError, Global};
use std::marker::Model;

/// Signals in the order in which they were added, each of them marked, so that it is found at once. A contract sees
/// their list.
#[derive(Drop)]
pub(crate) struct SignalSet {
    signals: Vec<u16>,
    marks: Vec<bool>,
}

impl Model for SignalSet {
    ghost use Rattle.std.specs.Prelude.{ℕ, List};
    ghost use Rattle.macro_expand.specs.Marks.{AreMarked};

    ghost Value = { List ℕ };

    ghost view = { λ s. s.signals.items };

    ghost invariant = { λ s. AreMarked s.signals.items s.marks.items };
}

impl SignalSet {
    /// No signals.
    pub(crate) fn new(alloc: Global) -> SignalSet
        ensures { result ≡ [] }
    {
        SignalSet {
            signals: Vec::new(alloc),
            marks: Vec::new(alloc),
        }
    }

    /// Whether a signal is among them.
    pub(crate) fn has(&self, signal: u16) -> bool
        ensures { result ≡ has_signal self.now signal }
    {
        match self.marks.get(usize::from(signal)) {
            Some(mark) => *mark,
            None => false,
        }
    }

    /// Adds a signal at the end.
    pub(crate) fn add(&mut self, signal: u16) -> Result<(), AllocError>
        ensures { OnOk result (self.new ≡ self.old ++ signal ∷ []) }
    {
        self.signals.reserve(1)?;
        make_room(&mut self.marks, usize::from(signal) + 1)?;
        self.marks[usize::from(signal)] = true;
        self.signals.push_reserved(signal);
        Ok(())
    }

    /// Forgets all of them, in a time in step with how many they are.
    pub(crate) fn clear(&mut self)
        ensures { self.new ≡ [] }
    {
        unmark(&mut self.marks, self.signals.as_slice());
        self.signals.clear();
    }
}

/// Makes marks at least so many; new ones are not set.
fn make_room(marks: &mut Vec<bool>, count: usize) -> Result<(), AllocError>
    ensures room { OnOk result (count ≤ length marks.new.items) }
    ensures kept { (signal : ℕ)
        → slice_index_or marks.new.items signal false ≡ slice_index_or marks.old.items signal false }
{
    if marks.len() < count {
        marks.resize(count, false)?;
    }
    Ok(())
}

/// Takes the marks of signals away.
fn unmark(marks: &mut Vec<bool>, signals: &[u16])
    ensures { (signal : ℕ) → slice_index_or marks.new.items signal false ≡ true
        → (slice_index_or marks.old.items signal false ≡ true) × (has_signal signals.now signal ≡ false) }
{
    for signal in signals {
        if usize::from(*signal) < marks.len() {
            marks[usize::from(*signal)] = false;
        }
    }
}
