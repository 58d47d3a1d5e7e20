//! The looks at one signal at one moment.

ghost use Rattle.std.specs.Prelude.{◌≡◌, map};
ghost use Rattle.strobe_check.specs.Count.{Counts};
ghost use Rattle.strobe_check.specs.Step.{looks_of, has_edge, is_watched, window_after, failed_edges, failed_window, failed, left_open, fail_in};

use crate::look::{is_edge, is_met, opened};
use crate::tally::Tally;
use tester_types::{Fail, Level, Look};

/// The level of a signal at a moment of a cycle.
#[derive(Clone, Copy)]
pub(crate) struct Sight {
    pub exec: u16,
    pub cycle: u64,
    pub mark: u32,
    pub at: u128,
    pub signal: u16,
    pub level: Level,
}

impl Sight {
    /// The fail of a look that wants another level.
    fn fail(&self, want: Look) -> Fail
        ensures { result ≡ fail_in self.now want }
    {
        Fail {
            exec: self.exec,
            cycle: self.cycle,
            at: self.at,
            signal: self.signal,
            want,
            seen: self.level,
            mark: self.mark,
        }
    }
}

/// Whether a signal is sensed at a moment with these looks: it has an edge look there, or a window that is
/// open after them, given the window that was open before.
pub(crate) fn is_watched(window: Option<Look>, looks: &[(u16, Look)], signal: u16) -> bool
    ensures { result ≡ is_watched window signal looks.now }
{
    has_edge(looks, signal) || after_looks(window, looks, signal).is_some()
}

/// Whether there is an edge look at the signal.
fn has_edge(looks: &[(u16, Look)], signal: u16) -> bool
    ensures { result ≡ has_edge signal looks.now }
{
    looks
        .iter()
        .any(|(of, look)| *of == signal && is_edge(*look))
}

/// The signal's window that is open after the looks, given the one before them.
fn after_looks(window: Option<Look>, looks: &[(u16, Look)], signal: u16) -> Option<Look>
    ensures { result ≡ window_after window (looks_of signal looks.now) }
{
    let mut window = window;
    for (of, look) in looks {
        if *of == signal {
            window = opened(*look);
        }
    }
    window
}

/// Counts the looks that fail, given the window that was open before the moment. Answers the window that
/// is open after it and hasn't failed.
pub(crate) fn judge(
    tally: &mut Tally,
    window: Option<Look>,
    looks: &[(u16, Look)],
    sight: &Sight,
) -> Option<Look>
    ensures stays { result
        ≡ left_open sight.now.level (window_after window (looks_of sight.now.signal looks.now)) }
    ensures counted { Counts
        (map (fail_in sight.now) (failed sight.now.level window (looks_of sight.now.signal looks.now)))
        tally.old tally.new }
{
    judge_edges(tally, looks, sight);
    judge_window(tally, after_looks(window, looks, sight.signal), sight)
}

/// Counts the edge looks that fail.
fn judge_edges(tally: &mut Tally, looks: &[(u16, Look)], sight: &Sight)
    ensures { Counts
        (map (fail_in sight.now) (failed_edges sight.now.level (looks_of sight.now.signal looks.now)))
        tally.old tally.new }
{
    for (signal, look) in looks {
        if *signal == sight.signal && is_edge(*look) && !is_met(*look, sight.level) {
            tally.count(sight.fail(*look));
        }
    }
}

/// Counts the window if it fails, and answers it if it doesn't.
fn judge_window(tally: &mut Tally, window: Option<Look>, sight: &Sight) -> Option<Look>
    ensures stays { result ≡ left_open sight.now.level window }
    ensures counted { Counts (map (fail_in sight.now) (failed_window sight.now.level window)) tally.old tally.new }
{
    match window {
        Some(look) if !is_met(look, sight.level) => {
            tally.count(sight.fail(look));
            None
        }
        _ => window,
    }
}
