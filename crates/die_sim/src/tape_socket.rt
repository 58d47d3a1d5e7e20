//! A socket that keeps a tape of its drives.
ghost use Rattle.std.specs.Prelude.{◌≡◌, ◌≤◌, [], IfOk, IfErr, OnOk, OnErr};
ghost use Rattle.tester_types.specs.Outside.{HasRisen};
ghost use Rattle.die_sim.specs.Socket.{Taping, KeepsTape, Fits, Overfills, taping_told, taped, CanDrive, CanSense, IsLoaded, Moves, Shows};
ghost use Rattle.die_sim.specs.declared.socket.SocketFault.TheVariants as SocketFault;

use crate::die::DieState;
use crate::image::DieImage;
use crate::sim::{drive_die, sense_die};
use crate::socket::{Contact, Socket, SocketFault};
use crate::tape::Tape;
use std::alloc::Global;
use std::marker::Model;
use tester_types::{Drive, Level, NoMemory};

/// A simulated die in a socket with a tape. It loses contact exactly where a drive doesn't fit the tape's room.
#[derive(Drop)]
pub struct TapeSocket {
    alloc: Global,
    die: Option<DieState>,
    tape: Tape,
    count: u64,
}

impl Model for TapeSocket {
    ghost use Rattle.die_sim.specs.Socket.{Taping};

    ghost Value = { Taping };

    ghost view = { λ s. record { die = s.die; tape = s.tape; count = s.count } };
}

impl TapeSocket {
    /// A socket in which no die is loaded, with an empty tape of this room.
    pub fn new(alloc: Global, room: u32) -> Result<TapeSocket, NoMemory>
        ensures { IfOk result (λ s. s ≡ record { die = None; tape = record { calls = []; left = room }; count = 0 }) }
    {
        let tape = Tape::new(alloc, room)?;
        Ok(TapeSocket {
            alloc,
            die: None,
            tape,
            count: 0,
        })
    }
}

impl Socket for TapeSocket {
    ghost told = { taping_told };

    fn load(&mut self, die: &DieImage) -> Result<(), SocketFault>
        ensures loads { OnOk result (IsLoaded die.now (taping_told self.new)) }
        ensures none { OnErr result ((taping_told self.new).loaded ≡ None) }
        ensures tape { (taping_told self.new).tape ≡ (taping_told self.old).tape }
        ensures count { (taping_told self.old).count ≤ (taping_told self.new).count }
        ensures cause { result ≡ Err SocketFault.Contact
            → HasRisen (taping_told self.old).count (taping_told self.new).count }
        ensures memory { IfErr result (λ e. e ≡ SocketFault.NoMemory) }
        ensures keeps { KeepsTape self.old self.new }
    {
        self.die = None;
        let made = DieState::make(self.alloc, die)?;
        self.die = Some(made);
        Ok(())
    }

    fn drive(&mut self, at: u128, drives: &[(u16, Drive)]) -> Result<(), Contact>
        requires { CanDrive (taping_told self.old).loaded drives.now }
        ensures moves { OnOk result (Moves (taping_told self.old).loaded (taping_told self.old).state
            (taping_told self.new).state drives.now) }
        ensures tape { OnOk result ((taping_told self.new).tape ≡ taped (taping_told self.old).tape at drives.now) }
        ensures kept { OnErr result ((taping_told self.new).tape ≡ (taping_told self.old).tape) }
        ensures loaded { (taping_told self.new).loaded ≡ (taping_told self.old).loaded }
        ensures count { (taping_told self.old).count ≤ (taping_told self.new).count }
        ensures cause { OnErr result (HasRisen (taping_told self.old).count (taping_told self.new).count) }
        // Contact is lost exactly where the call doesn't fit the room that is left.
        ensures full { OnErr result (Overfills self.old self.new drives.now) }
        ensures fits { OnOk result (Fits self.old self.new drives.now) }
    {
        if self.tape.left() as usize <= drives.len() {
            self.count = self.count.saturating_add(1);
            return Err(Contact);
        }
        drive_die(&mut self.die, drives);
        self.tape.add(at, drives);
        Ok(())
    }

    fn sense(&mut self, signal: u16) -> Result<Level, Contact>
        requires { CanSense (taping_told self.old).loaded signal }
        ensures shows { IfOk result (λ level. Shows (taping_told self.old).loaded
            (taping_told self.old).state signal level) }
        ensures kept { OnOk result ((taping_told self.new).state ≡ (taping_told self.old).state) }
        ensures tape { (taping_told self.new).tape ≡ (taping_told self.old).tape }
        ensures loaded { (taping_told self.new).loaded ≡ (taping_told self.old).loaded }
        ensures count { (taping_told self.old).count ≤ (taping_told self.new).count }
        ensures cause { OnErr result (HasRisen (taping_told self.old).count (taping_told self.new).count) }
        ensures senses { OnErr result ⊥ }
        ensures same { self.new ≡ self.old }
    {
        Ok(sense_die(&self.die, signal))
    }

    fn unload(&mut self)
        ensures none { (taping_told self.new).loaded ≡ None }
        ensures tape { (taping_told self.new).tape ≡ (taping_told self.old).tape }
        ensures count { (taping_told self.old).count ≤ (taping_told self.new).count }
        ensures keeps { KeepsTape self.old self.new }
    {
        self.die = None;
    }

    fn tape(&self) -> Option<&Tape> {
        Some(&self.tape)
    }
}
