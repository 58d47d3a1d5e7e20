//! A socket that records the drives of a simulated die, on a tape that grows in step with them.

ghost use Rattle.std.specs.Prelude.{◌≡◌, ◌++◌, ◌∷◌, [], ◌<◌, ◌≤◌, false, IfOk, MatchResult, OnOk, OnErr};
ghost use Rattle.vcd_dump.specs.Taken.{drives_in, most_drives};
ghost use Rattle.vcd_dump.specs.declared.fault.TapeFault.TheVariants as fault;
ghost use Rattle.vcd_dump.specs.Recording.{Recording, recording_told};

use crate::fault::TapeFault;
use die_sim::{Contact, DieImage, SimSocket, Socket, SocketFault, Tape};
use std::alloc::Global;
use std::marker::Model;
use tester_types::{Drive, Level, NoMemory};
use vcd_text::add_call;

/// The most drives of a tape.
const MOST_DRIVES: u32 = 4_194_304;

/// A simulated die whose drives are recorded. It loses contact only where memory for the tape is wanting, and at each drive
/// once there were too many.
#[derive(Drop)]
pub(crate) struct Recorder {
    die: SimSocket,
    tape: Tape,
    /// How many drives more there may be, while there aren't too many.
    left: u32,
    over: bool,
    count: u64,
}

impl Model for Recorder {
    ghost use Rattle.vcd_dump.specs.Recording.{Recording, IsCounted};

    ghost Value = { Recording };

    ghost view = { λ s. record { die = s.die; calls = s.tape.calls; over = s.over; count = s.count } };

    ghost invariant = { λ s. IsCounted s.over s.left s.tape.calls };
}

impl Recorder {
    /// A recorder of a die, before its first drive.
    pub fn new(alloc: Global, die: SimSocket) -> Result<Recorder, NoMemory>
        ensures { IfOk result (λ s. s ≡ record { die = die; calls = []; over = false; count = 0 }) }
    {
        Ok(Recorder {
            die,
            tape: Tape::new(alloc, 0)?,
            left: MOST_DRIVES,
            over: false,
            count: 0,
        })
    }

    /// Whether there are too many drives.
    pub fn is_over(&self) -> bool
        ensures { result ≡ self.now.over }
    {
        self.over
    }

    /// The tape of the drives, unless there are too many.
    pub fn finish(self) -> Result<Tape, TapeFault>
        ensures { MatchResult result
            (λ tape. (tape.calls ≡ self.calls) × (self.over ≡ false) × (drives_in self.calls ≤ most_drives))
            (λ e. (e ≡ fault.TapeTooLong) × (most_drives < drives_in self.calls)) }
    {
        if self.over {
            Err(TapeFault::TapeTooLong)
        } else {
            Ok(self.tape)
        }
    }

    /// Adds a call to the tape.
    fn record(&mut self, at: u128, drives: &[(u16, Drive)]) -> Result<(), NoMemory>
        ensures added { OnOk result (self.new.calls ≡ self.old.calls ++ (at, drives.now) ∷ []) }
        ensures kept { OnErr result (self.new.calls ≡ self.old.calls) }
        ensures die { self.new.die ≡ self.old.die }
        ensures count { self.new.count ≡ self.old.count }
    {
        add_call(&mut self.tape, at, drives)?;
        if drives.len() > self.left as usize {
            self.over = true;
        } else {
            self.left -= drives.len() as u32;
        }
        Ok(())
    }
}

impl Socket for Recorder {
    ghost told = { recording_told };

    fn load(&mut self, die: &DieImage) -> Result<(), SocketFault> {
        self.die.load(die)
    }

    fn drive(&mut self, at: u128, drives: &[(u16, Drive)]) -> Result<(), Contact> {
        if self.over {
            self.count = self.count.saturating_add(1);
            return Err(Contact);
        }
        match self.record(at, drives) {
            Ok(()) => self.die.drive(at, drives),
            Err(_) => {
                self.count = self.count.saturating_add(1);
                Err(Contact)
            }
        }
    }

    fn sense(&mut self, signal: u16) -> Result<Level, Contact> {
        self.die.sense(signal)
    }

    fn unload(&mut self) {
        self.die.unload()
    }

    fn tape(&self) -> Option<&Tape> {
        Some(&self.tape)
    }
}
