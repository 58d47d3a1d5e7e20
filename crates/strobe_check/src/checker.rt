//! The checker of a try's strobes.

ghost use Rattle.std.specs.Prelude.{◌≡◌, ◌≤◌, length, IfOk};
ghost use Rattle.tester_types.specs.declared.cycle.Moment.{Moment};
ghost use Rattle.strobe_check.specs.Ahead.{Stands, Asks};
ghost use Rattle.strobe_check.specs.History.{HasSeen, numbered, fresh, SeesEntry, SeesEnd, Answers, sensed, total_of, kept_of};
ghost use Rattle.strobe_check.specs.Step.{is_wanted};

use crate::ahead::Ahead;
use crate::judge::{Sight, is_watched, judge};
use crate::run::{are_sorted, split_run};
use crate::tally::Tally;
use crate::windows::{Windows, next_place};
use std::alloc::Global;
use std::marker::Model;
use tester_types::{FailList, Level, Look, Moment, NoMemory};

/// How many signals there can be, since their numbers have 16 bits.
const MOST_NUMBERED: usize = 65_536;

/// Judges the looks of one cycle after another.
#[derive(Drop)]
pub struct Checker {
    bound: Vec<bool>,
    windows: Windows,
    tally: Tally,
}

impl Model for Checker {
    ghost use Rattle.std.specs.Prelude.{◌≡◌, ◌≤◌, vec_len, length};
    ghost use Rattle.strobe_check.specs.History.{Held, most_numbered};

    ghost Value = { Held };

    ghost view = { λ c. record { bound = c.bound.items; windows = c.windows; count = c.tally } };

    ghost invariant = { λ c. (vec_len c.bound ≡ length c.windows) × (length c.windows ≤ most_numbered) };
}

impl Checker {
    /// A checker that keeps the first `keep` fails. `bound` says of each signal whether it is bound; no
    /// look is made of one that isn't.
    pub fn make(alloc: Global, bound: &[bool], keep: u16) -> Result<Checker, NoMemory>
        ensures { IfOk result (λ checker. HasSeen (fresh (numbered bound.now) keep) checker) }
    {
        let signals = bound.len().min(MOST_NUMBERED);
        Ok(Checker {
            bound: Vec::from_slice(alloc, &bound[..signals])?,
            windows: Windows::make(alloc, signals)?,
            tally: Tally::new(alloc, keep)?,
        })
    }

    /// Whether the signal is to be sensed at the next moment of the open cycle: it has an edge look there,
    /// or a window that is open after the moment's looks and hasn't failed.
    pub fn wanted(&self, moment: &Moment, signal: u16) -> bool
        ensures { Answers (sensed moment.now signal) self.now result }
    {
        self.is_wanted(signal, moment.looks.as_slice())
    }

    /// The next signal that is to be sensed at the next moment of the open cycle, from where the asking stands on; none where
    /// there is no further one.
    ///
    /// Where the looks stand in the order of their signals, it goes over those that have a look or a window alone. It takes no
    /// memory.
    pub fn next_wanted(&self, ahead: &mut Ahead) -> Option<u16>
        requires { ahead.old.signal ≤ length self.now.bound }
        ensures { (moment : Moment) → Stands moment ahead.old → Asks moment self.now ahead.old ahead.new result }
    {
        let sorted = ahead.sorted;
        let mut rest = ahead.looks;
        let mut signal = next_place(&self.windows, rest, sorted, ahead.signal);
        while signal < self.windows.len() {
            let (looks, later) = split_run(rest, sorted, signal as u16);
            rest = later;
            if self.is_wanted(signal as u16, looks) {
                ahead.looks = later;
                ahead.signal = signal + 1;
                return Some(signal as u16);
            }
            signal = next_place(&self.windows, rest, sorted, signal + 1);
        }
        None
    }

    /// Whether the signal is to be sensed at a moment with these looks at it.
    fn is_wanted(&self, signal: u16, looks: &[(u16, Look)]) -> bool
        ensures { result ≡ is_wanted self.now signal looks.now }
    {
        let at = usize::from(signal);
        if at >= self.windows.len() || !self.bound[at] {
            return false;
        }
        is_watched(self.windows.get(at), looks, signal)
    }

    /// Judges the next moment of the open cycle, with one level a signal after the moment's drives. It has
    /// the numbers of its executive and its cycle, and the cycle's mark.
    ///
    /// Where the looks stand in the order of their signals, it goes over them once, and over the signals that have a look or a
    /// window; else over all looks once for each bound signal. It takes no memory.
    pub fn look(&mut self, exec: u16, cycle: u64, mark: u32, moment: &Moment, levels: &[Level])
        requires { length self.old.bound ≤ length levels.now }
        ensures same { self.new.bound ≡ self.old.bound }
        ensures seen { SeesEntry
            (record { exec = exec; cycle = cycle; mark = mark; moment = moment.now; levels = levels.now })
            self.old self.new }
    {
        self.look_at(
            exec,
            cycle,
            mark,
            moment.at,
            moment.looks.as_slice(),
            levels,
        );
    }

    /// The same for a moment of this instant with these looks, whatever it drives.
    pub fn look_at(
        &mut self,
        exec: u16,
        cycle: u64,
        mark: u32,
        at: u128,
        looks: &[(u16, Look)],
        levels: &[Level],
    )
        requires { length self.old.bound ≤ length levels.now }
        ensures same { self.new.bound ≡ self.old.bound }
        ensures seen { (moment : Moment) → moment.at ≡ at → moment.looks ≡ looks.now → SeesEntry
            (record { exec = exec; cycle = cycle; mark = mark; moment = moment; levels = levels.now })
            self.old self.new }
    {
        let sorted = are_sorted(looks);
        let mut rest = looks;
        let mut signal = next_place(&self.windows, rest, sorted, 0);
        while signal < self.windows.len() {
            let (own, later) = split_run(rest, sorted, signal as u16);
            rest = later;
            if self.bound[signal] {
                let sight = Sight {
                    exec,
                    cycle,
                    mark,
                    at,
                    signal: signal as u16,
                    level: levels[signal],
                };
                let left = judge(&mut self.tally, self.windows.get(signal), own, &sight);
                self.windows.put(signal, left);
            }
            signal = next_place(&self.windows, rest, sorted, signal + 1);
        }
    }

    /// Closes the open cycle and with it all windows.
    pub fn close_cycle(&mut self)
        ensures same { self.new.bound ≡ self.old.bound }
        ensures seen { SeesEnd self.old self.new }
    {
        self.windows.close();
    }

    /// How many fails there were, up to the largest `u64`.
    pub fn total(&self) -> u64
        ensures { Answers total_of self.now result }
    {
        self.tally.total()
    }

    /// The kept fails in their order.
    pub fn kept(self) -> FailList
        ensures { Answers kept_of self result }
    {
        self.tally.into_kept()
    }
}
