//! The socket through which a tester meets a die.
ghost use Rattle.std.specs.Prelude.{◌≡◌, ◌≤◌, Option, Some, None, OnOk, OnErr, IfOk, MatchOption};
ghost use Rattle.tester_types.specs.Outside.{HasRisen};
ghost use Rattle.die_sim.specs.Socket.{Told, CanDrive, CanSense, IsLoaded, Moves, Shows, taped};
ghost use Rattle.die_sim.specs.declared.socket.SocketFault.TheVariants as SocketFault;

use crate::image::DieImage;
use crate::tape::Tape;
use tester_types::{Drive, Level, NoMemory};

/// The contact to the die was lost.
#[derive(Clone, Copy, Debug, PartialEq, Eq)]
pub struct Contact;

/// Why a die wasn't loaded.
#[derive(Clone, Copy, Debug, PartialEq, Eq)]
pub enum SocketFault {
    Contact,
    NoMemory,
}

impl From<NoMemory> for SocketFault {
    ghost from_gives = { λ _ e. e ≡ SocketFault.NoMemory };

    fn from(_e: NoMemory) -> SocketFault {
        SocketFault::NoMemory
    }
}

/// A place that holds a die. It tells the die's state, it may tell a tape of the drives that it made, and it counts its faults.
pub trait Socket: Drop {
    ghost told: { Self → Told };

    /// Loads a die, in place of one that may be loaded. After an error none is.
    fn load(&mut self, die: &DieImage) -> Result<(), SocketFault>
        ensures loads { OnOk result (IsLoaded die.now (told self.new)) }
        ensures none { OnErr result ((told self.new).loaded ≡ None) }
        ensures tape { (told self.new).tape ≡ (told self.old).tape }
        ensures count { (told self.old).count ≤ (told self.new).count }
        ensures cause { result ≡ Err SocketFault.Contact → HasRisen (told self.old).count (told self.new).count };

    /// One moment, at an instant in femtoseconds after the start of the try. After an error the die's state is any.
    fn drive(&mut self, at: u128, drives: &[(u16, Drive)]) -> Result<(), Contact>
        requires { CanDrive (told self.old).loaded drives.now }
        ensures moves { OnOk result (Moves (told self.old).loaded (told self.old).state
            (told self.new).state drives.now) }
        ensures tape { OnOk result ((told self.new).tape ≡ taped (told self.old).tape at drives.now) }
        ensures kept { OnErr result ((told self.new).tape ≡ (told self.old).tape) }
        ensures loaded { (told self.new).loaded ≡ (told self.old).loaded }
        ensures count { (told self.old).count ≤ (told self.new).count }
        ensures cause { OnErr result (HasRisen (told self.old).count (told self.new).count) };

    /// The level of a signal. After an error the die's state is any.
    fn sense(&mut self, signal: u16) -> Result<Level, Contact>
        requires { CanSense (told self.old).loaded signal }
        ensures shows { IfOk result (λ level. Shows (told self.old).loaded (told self.old).state signal level) }
        ensures kept { OnOk result ((told self.new).state ≡ (told self.old).state) }
        ensures tape { (told self.new).tape ≡ (told self.old).tape }
        ensures loaded { (told self.new).loaded ≡ (told self.old).loaded }
        ensures count { (told self.old).count ≤ (told self.new).count }
        ensures cause { OnErr result (HasRisen (told self.old).count (told self.new).count) };

    /// No die is loaded any more.
    fn unload(&mut self)
        ensures none { (told self.new).loaded ≡ None }
        ensures tape { (told self.new).tape ≡ (told self.old).tape }
        ensures count { (told self.old).count ≤ (told self.new).count };

    /// The tape, if the socket keeps one.
    fn tape(&self) -> Option<&Tape>
        ensures { MatchOption result ((told self.now).tape ≡ None)
            (λ tape. (told self.now).tape ≡ Some tape.now.calls) };
}

/// A socket of any kind, which can be moved to another thread.
pub type SocketBox = Box<dyn Socket + Send>;

impl Socket for SocketBox {
    ghost told = { λ b. (Socket-box b).told b.value };

    fn load(&mut self, die: &DieImage) -> Result<(), SocketFault> {
        (**self).load(die)
    }

    fn drive(&mut self, at: u128, drives: &[(u16, Drive)]) -> Result<(), Contact> {
        (**self).drive(at, drives)
    }

    fn sense(&mut self, signal: u16) -> Result<Level, Contact> {
        (**self).sense(signal)
    }

    fn unload(&mut self) {
        (**self).unload()
    }

    fn tape(&self) -> Option<&Tape> {
        (**self).tape()
    }
}
