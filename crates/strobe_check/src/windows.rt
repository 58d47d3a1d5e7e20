//! The windows that are open, and the next signal that has one.

ghost use Rattle.std.specs.Prelude.{◌≡◌, ℕ, ◌<◌, ◌≤◌, None, length, replicate, IfOk, slice_index_or, slice_set};
ghost use Rattle.strobe_check.specs.History.{most_numbered};
ghost use Rattle.strobe_check.specs.Windows.{Passes};

use place_bits::Bits;
use std::alloc::Global;
use std::marker::Model;
use tester_types::{Look, NoMemory};

/// The window that is open at each signal, and beside them which signals have one, so that a search passes 64 signals at a
/// step, and takes none past the last signal that had one in the open cycle.
#[derive(Drop)]
pub(crate) struct Windows {
    looks: Vec<Option<Look>>,
    marks: Bits,
    end: usize,
}

impl Model for Windows {
    ghost use Rattle.std.specs.Prelude.{List, Option};
    ghost use Rattle.tester_types.specs.declared.wave.Look.{Look};
    ghost use Rattle.strobe_check.specs.Windows.{AreOpen};

    ghost Value = { List (Option Look) };

    ghost view = { λ w. w.looks.items };

    ghost invariant = { λ w. AreOpen w.looks.items w.marks w.end };
}

impl Windows {
    /// No window at any of so many signals.
    pub fn make(alloc: Global, signals: usize) -> Result<Windows, NoMemory>
        requires { signals ≤ most_numbered }
        ensures { IfOk result (λ windows. windows ≡ replicate signals None) }
    {
        Ok(Windows {
            looks: vec![in alloc; None; signals]?,
            marks: Bits::new(alloc, signals)?,
            end: 0,
        })
    }

    pub fn len(&self) -> usize
        ensures { result ≡ length self.now }
    {
        self.looks.len()
    }

    pub fn get(&self, signal: usize) -> Option<Look>
        requires { signal < length self.now }
        ensures { result ≡ slice_index_or self.now signal None }
    {
        self.looks[signal]
    }

    pub fn put(&mut self, signal: usize, window: Option<Look>)
        requires { signal < length self.old }
        ensures { self.new ≡ slice_set self.old signal window }
    {
        if window.is_some() {
            self.marks.set(signal);
            self.end = self.end.max(signal + 1);
        } else {
            self.marks.clear(signal);
        }
        self.looks[signal] = window;
    }

    /// The first signal from this one on that has a window, or the number of all where there is none.
    pub fn next(&self, from: usize) -> usize
        requires { from ≤ length self.now }
        ensures onward { from ≤ result }
        ensures within { result ≤ length self.now }
        ensures skipped { (k : ℕ) → from ≤ k → k < result → slice_index_or self.now k None ≡ None }
    {
        if self.end <= from {
            return self.looks.len();
        }
        self.marks.next(from).min(self.looks.len())
    }

    /// Closes all windows.
    pub fn close(&mut self)
        ensures { self.new ≡ replicate (length self.old) None }
    {
        let mut signal = self.next(0);
        while signal < self.len() {
            self.put(signal, None);
            signal = self.next(signal + 1);
        }
        self.end = 0;
    }
}

/// A signal such that none from one on in front of it has a window, nor a look among these. Where the looks stand in the
/// order of their signals, it is the first one that has; else it is that one itself.
pub(crate) fn next_place(
    windows: &Windows,
    looks: &[(u16, Look)],
    sorted: bool,
    from: usize,
) -> usize
    requires { from ≤ length windows.now }
    ensures within { result ≤ length windows.now }
    ensures passes { Passes sorted looks.now windows.now from result }
{
    if !sorted {
        return from;
    }
    let open = windows.next(from);
    if looks.is_empty() {
        return open;
    }
    usize::from(looks[0].0).min(open).max(from)
}
