//! A reader of a dump, line by line.

ghost use Rattle.std.specs.Prelude.{◌≡◌, ◌≢◌, ◌<◌, ◌≤◌, ◌∷◌, ◌++◌, [], Some, None, OnOk, OnErr, IfOk, MatchOption, length};
ghost use Rattle.text_bytes.specs.Limits.{most_signals};
ghost use Rattle.vcd_text.specs.Dump.{timescale, scope, upscope, definitions, at, change, named, spelled};
ghost use Rattle.vcd_text.specs.Standing.{begun, behind, pair_at, FitsLine, IsStop};
ghost use Rattle.vcd_text.specs.Seen.{seen, standing_of, may_call, Takes, TakesText, IsPairAt};

use crate::adding::add_call;
use crate::dump::Dump;
use crate::line::{Line, line_of};
use crate::names::Names;
use die_sim::Tape;
use std::alloc::Global;
use std::marker::Model;
use tester_types::{Drive, NoMemory};

/// How far a dump was read.
#[derive(Clone, Copy, Debug, PartialEq, Eq)]
pub(crate) enum Stage {
    Begun,
    Timed,
    Naming,
    Known,
    Playing,
    Calling,
}

/// Where the reading of a dump stands.
#[derive(Drop)]
pub(crate) struct Reader {
    stage: Stage,
    names: Names,
    tape: Tape,
    /// The instant of the call that is open, and its drives.
    last: u128,
    drives: Vec<(u16, Drive)>,
    /// The least signal that its next drive may have.
    least: u16,
}

impl Model for Reader {
    ghost use Rattle.std.specs.Prelude.{◌≡◌};
    ghost use Rattle.vcd_text.specs.Standing.{Standing, next_of};
    ghost use Rattle.vcd_text.specs.Seen.{standing_of, IsFreshAt};

    ghost Value = { Standing };

    ghost view = { λ s. standing_of s.stage s.names s.tape.calls s.last s.drives.items };

    ghost invariant = { λ s. IsFreshAt s.stage s.names s.tape.calls × (s.least ≡ next_of s.drives.items) };
}

impl Reader {
    /// A reader that has read nothing.
    pub fn new(alloc: Global) -> Result<Reader, NoMemory>
        ensures { IfOk result (λ reader. reader ≡ begun) }
    {
        Ok(Reader {
            stage: Stage::Begun,
            names: Names::new(alloc)?,
            tape: Tape::new(alloc, 0)?,
            last: 0,
            drives: Vec::new(alloc),
            least: 0,
        })
    }

    /// Takes the line of a var, if one may stand here.
    fn take_var(&mut self, signal: u16, name: &[u8]) -> Result<bool, NoMemory>
        requires { signal < most_signals }
        ensures { IfOk result (λ took. Takes self.old (named signal name.now) took self.new) }
    {
        if self.stage != Stage::Naming || signal < self.names.least() {
            return Ok(false);
        }
        self.names.add(signal, name)?;
        Ok(true)
    }

    /// Takes the line of a drive, if one may stand here.
    fn take_change(&mut self, signal: u16, drive: Drive) -> Result<bool, NoMemory>
        requires { signal < most_signals }
        ensures { IfOk result (λ took. Takes self.old (change signal drive) took self.new) }
    {
        if self.stage != Stage::Calling || signal < self.least || !self.names.has(signal) {
            return Ok(false);
        }
        self.drives.push((signal, drive))?;
        self.least = signal + 1;
        Ok(true)
    }

    /// Whether a call may begin here at this instant.
    fn may_call(&self, instant: u128) -> bool
        ensures { result ≡ may_call self.now instant }
    {
        match self.stage {
            Stage::Playing => self.names.has_some(),
            Stage::Calling => !self.drives.is_empty() && self.last < instant,
            _ => false,
        }
    }

    /// Takes the line of an instant, if one may stand here.
    fn take_call(&mut self, instant: u128) -> Result<bool, NoMemory>
        ensures { IfOk result (λ took. Takes self.old (at instant) took self.new) }
    {
        if !self.may_call(instant) {
            return Ok(false);
        }
        if self.stage == Stage::Calling {
            add_call(&mut self.tape, self.last, self.drives.as_slice())?;
        }
        self.stage = Stage::Calling;
        self.last = instant;
        self.drives.clear();
        self.least = 0;
        Ok(true)
    }

    /// Takes the first line, if it may stand here.
    fn take_timescale(&mut self) -> bool
        ensures { Takes self.old timescale result self.new }
    {
        let here = self.stage == Stage::Begun;
        if here {
            self.stage = Stage::Timed;
        }
        here
    }

    /// Takes the second line, if it may stand here.
    fn take_scope(&mut self) -> bool
        ensures { Takes self.old scope result self.new }
    {
        let here = self.stage == Stage::Timed;
        if here {
            self.stage = Stage::Naming;
        }
        here
    }

    /// Takes the line behind the vars, if it may stand here.
    fn take_upscope(&mut self) -> bool
        ensures { Takes self.old upscope result self.new }
    {
        let here = self.stage == Stage::Naming;
        if here {
            self.stage = Stage::Known;
        }
        here
    }

    /// Takes the last line of the head, if it may stand here.
    fn take_definitions(&mut self) -> bool
        ensures { Takes self.old definitions result self.new }
    {
        let here = self.stage == Stage::Known;
        if here {
            self.stage = Stage::Playing;
        }
        here
    }

    /// Takes a line, if it may stand here.
    fn take(&mut self, line: Line<'_>) -> Result<bool, NoMemory>
        requires { FitsLine (seen line) }
        ensures { IfOk result (λ took. Takes self.old (seen line.entry) took self.new) }
    {
        match line {
            Line::Timescale => Ok(self.take_timescale()),
            Line::Scope => Ok(self.take_scope()),
            Line::Named(signal, name) => self.take_var(signal, name),
            Line::Upscope => Ok(self.take_upscope()),
            Line::Definitions => Ok(self.take_definitions()),
            Line::At(instant) => self.take_call(instant),
            Line::Change(signal, drive) => self.take_change(signal, drive),
        }
    }

    /// Takes a line by its text, if a dump may go on with it.
    pub fn take_text(&mut self, text: &[u8]) -> Result<bool, NoMemory>
        ensures { IfOk result (λ took. TakesText self.old text.now took self.new) }
    {
        match line_of(text) {
            Some(line) => self.take(line),
            None => Ok(false),
        }
    }

    /// The vars and the tape of a dump that ends here, if one may.
    pub fn finish(self) -> Result<Option<Dump>, NoMemory>
        ensures { IfOk result (λ found. IsPairAt self found) }
    {
        let mut tape = self.tape;
        match self.stage {
            Stage::Playing => {}
            Stage::Calling if !self.drives.is_empty() => {
                add_call(&mut tape, self.last, self.drives.as_slice())?;
            }
            _ => return Ok(None),
        }
        let vars = self.names.into_list();
        Ok(Some(Dump { vars, tape }))
    }
}
