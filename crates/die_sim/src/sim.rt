//! A socket that holds a simulated die.
ghost use Rattle.std.specs.Prelude.{◌≡◌, None, IfOk};
ghost use Rattle.die_sim.specs.Socket.{loaded_of, state_of, holding, HoldsNetOf, IsLoaded, CanDrive, CanSense, Moves, Shows};

use crate::die::DieState;
use crate::image::DieImage;
use crate::socket::{Contact, Socket, SocketFault};
use crate::steps::Steps;
use crate::tape::Tape;
use std::alloc::Global;
use std::marker::Model;
use tester_types::{Drive, Level};

/// Moves the loaded die by one moment.
pub(crate) fn drive_die(die: &mut Option<DieState>, drives: &[(u16, Drive)])
    requires { CanDrive (loaded_of die.old) drives.now }
    ensures loaded { loaded_of die.new ≡ loaded_of die.old }
    ensures moves { Moves (loaded_of die.old) (state_of die.old) (state_of die.new) drives.now }
{
    match die {
        Some(state) => {
            let mut steps: Steps<()> = Steps::new();
            state.apply(drives, &mut steps);
        }
        None => unreachable!(),
    }
}

/// The level of a signal of the loaded die.
pub(crate) fn sense_die(die: &Option<DieState>, signal: u16) -> Level
    requires { CanSense (loaded_of die.now) signal }
    ensures { Shows (loaded_of die.now) (state_of die.now) signal result }
{
    match die {
        Some(state) => state.level(signal),
        None => unreachable!(),
    }
}

/// A simulated die in a socket that never loses contact.
#[derive(Drop)]
pub struct SimSocket {
    alloc: Global,
    die: Option<DieState>,
}

impl Model for SimSocket {
    ghost use Rattle.std.specs.Prelude.{Option};
    ghost use Rattle.die_sim.specs.Die.{Die};

    ghost Value = { Option Die };

    ghost view = { λ s. s.die };
}

impl SimSocket {
    /// A socket in which no die is loaded.
    pub fn new(alloc: Global) -> SimSocket
        ensures { result ≡ None }
    {
        SimSocket { alloc, die: None }
    }

    /// Loads another image of the netlist and the binding that are loaded, without memory.
    pub fn lay(&mut self, die: &DieImage)
        requires { HoldsNetOf self.old die.now }
        ensures { IsLoaded die.now (holding self.new None 0) }
    {
        match &mut self.die {
            Some(state) => state.lay(die),
            None => unreachable!(),
        }
    }
}

impl Socket for SimSocket {
    ghost told = { λ s. holding s None 0 };

    fn load(&mut self, die: &DieImage) -> Result<(), SocketFault> {
        self.die = None;
        let made = DieState::make(self.alloc, die)?;
        self.die = Some(made);
        Ok(())
    }

    fn drive(&mut self, _at: u128, drives: &[(u16, Drive)]) -> Result<(), Contact> {
        drive_die(&mut self.die, drives);
        Ok(())
    }

    fn sense(&mut self, signal: u16) -> Result<Level, Contact> {
        Ok(sense_die(&self.die, signal))
    }

    fn unload(&mut self) {
        self.die = None;
    }

    fn tape(&self) -> Option<&Tape> {
        None
    }
}
