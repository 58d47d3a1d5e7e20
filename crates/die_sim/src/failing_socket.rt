//! A socket that loses contact at one call.
ghost use Rattle.std.specs.Prelude.{◌≡◌, ◌≤◌, None, OnOk, OnErr, IfOk};
ghost use Rattle.tester_types.specs.Outside.{HasRisen};
ghost use Rattle.die_sim.specs.Socket.{Failing, CanDrive, CanSense, IsLoaded, Moves, Shows, taped, failing_told, Uncounted, Passes, Fails};
ghost use Rattle.die_sim.specs.declared.socket.SocketFault.TheVariants as SocketFault;

use crate::die::DieState;
use crate::image::DieImage;
use crate::sim::{drive_die, sense_die};
use crate::socket::{Contact, Socket, SocketFault};
use crate::tape::Tape;
use std::alloc::Global;
use std::marker::Model;
use tester_types::{Drive, Level};

/// A simulated die in a socket that loses contact at one of the calls of load, drive and sense, and at no other.
#[derive(Drop)]
pub struct FailingSocket {
    alloc: Global,
    die: Option<DieState>,
    fails: u64,
    calls: u64,
    count: u64,
}

impl Model for FailingSocket {
    ghost use Rattle.die_sim.specs.Socket.{Failing};

    ghost Value = { Failing };

    ghost view = { λ s. record { die = s.die; fails = s.fails; calls = s.calls; count = s.count } };
}

impl FailingSocket {
    /// A socket in which no die is loaded. Calls are counted from 1; with 0 none fails.
    pub fn new(alloc: Global, call: u64) -> FailingSocket
        ensures { result ≡ record { die = None; fails = call; calls = 0; count = 0 } }
    {
        FailingSocket {
            alloc,
            die: None,
            fails: call,
            calls: 0,
            count: 0,
        }
    }

    /// Counts a call, and loses contact where it is the one that fails.
    fn begin(&mut self) -> Result<(), Contact>
        ensures die { self.new.die ≡ self.old.die }
        ensures count { self.old.count ≤ self.new.count }
        ensures passes { OnOk result (Passes self.old self.new) }
        ensures fails { OnErr result (Fails self.old self.new) }
    {
        self.calls = self.calls.saturating_add(1);
        if self.calls == self.fails {
            self.count = self.count.saturating_add(1);
            return Err(Contact);
        }
        Ok(())
    }
}

impl Socket for FailingSocket {
    ghost told = { failing_told };

    fn load(&mut self, die: &DieImage) -> Result<(), SocketFault>
        ensures loads { OnOk result (IsLoaded die.now (failing_told self.new)) }
        ensures none { OnErr result ((failing_told self.new).loaded ≡ None) }
        ensures tape { (failing_told self.new).tape ≡ (failing_told self.old).tape }
        ensures count { (failing_told self.old).count ≤ (failing_told self.new).count }
        ensures cause { result ≡ Err SocketFault.Contact
            → HasRisen (failing_told self.old).count (failing_told self.new).count }
        ensures passes { OnOk result (Passes self.old self.new) }
        ensures fails { result ≡ Err SocketFault.Contact → Fails self.old self.new }
        ensures else_passes { result ≡ Err SocketFault.NoMemory → Passes self.old self.new }
    {
        self.die = None;
        if self.begin().is_err() {
            return Err(SocketFault::Contact);
        }
        let made = DieState::make(self.alloc, die)?;
        self.die = Some(made);
        Ok(())
    }

    fn drive(&mut self, _at: u128, drives: &[(u16, Drive)]) -> Result<(), Contact>
        requires { CanDrive (failing_told self.old).loaded drives.now }
        ensures moves { OnOk result (Moves (failing_told self.old).loaded (failing_told self.old).state
            (failing_told self.new).state drives.now) }
        ensures tape { OnOk result ((failing_told self.new).tape ≡ taped (failing_told self.old).tape _at drives.now) }
        ensures kept { OnErr result ((failing_told self.new).tape ≡ (failing_told self.old).tape) }
        ensures loaded { (failing_told self.new).loaded ≡ (failing_told self.old).loaded }
        ensures count { (failing_told self.old).count ≤ (failing_told self.new).count }
        ensures cause { OnErr result (HasRisen (failing_told self.old).count (failing_told self.new).count) }
        ensures passes { OnOk result (Passes self.old self.new) }
        ensures fails { OnErr result (Fails self.old self.new) }
    {
        self.begin()?;
        drive_die(&mut self.die, drives);
        Ok(())
    }

    fn sense(&mut self, signal: u16) -> Result<Level, Contact>
        requires { CanSense (failing_told self.old).loaded signal }
        ensures shows { IfOk result (λ level. Shows (failing_told self.old).loaded
            (failing_told self.old).state signal level) }
        ensures kept { OnOk result ((failing_told self.new).state ≡ (failing_told self.old).state) }
        ensures tape { (failing_told self.new).tape ≡ (failing_told self.old).tape }
        ensures loaded { (failing_told self.new).loaded ≡ (failing_told self.old).loaded }
        ensures count { (failing_told self.old).count ≤ (failing_told self.new).count }
        ensures cause { OnErr result (HasRisen (failing_told self.old).count (failing_told self.new).count) }
        ensures passes { OnOk result (Passes self.old self.new) }
        ensures fails { OnErr result (Fails self.old self.new) }
    {
        self.begin()?;
        Ok(sense_die(&self.die, signal))
    }

    fn unload(&mut self)
        ensures none { (failing_told self.new).loaded ≡ None }
        ensures tape { (failing_told self.new).tape ≡ (failing_told self.old).tape }
        ensures count { (failing_told self.old).count ≤ (failing_told self.new).count }
        ensures uncounted { Uncounted self.old self.new }
    {
        self.die = None;
    }

    fn tape(&self) -> Option<&Tape> {
        None
    }
}
