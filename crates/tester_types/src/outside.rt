//! The outside as traits: shelves that hold files, and sinks that take bytes.

ghost use Rattle.std.specs.Prelude.{◌≡◌, ℕ, ◌<◌, ◌≤◌, List, Option, length, take, IfOk, OnErr};
ghost use Rattle.tester_types.specs.Outside.{HasRisen, gained, Files, HandsOut, FailsBy};
ghost use Rattle.tester_types.specs.declared.outside.ShelfFault.TheVariants as ShelfFault;

use std::alloc::{AllocError, AllocFailed, Global};

/// There was no memory.
#[derive(Clone, Copy, Debug, PartialEq, Eq)]
pub struct NoMemory;

impl From<AllocError> for NoMemory {
    fn from(_e: AllocError) -> NoMemory {
        NoMemory
    }
}

impl<T: Drop> From<AllocFailed<T>> for NoMemory {
    fn from(_e: AllocFailed<T>) -> NoMemory {
        NoMemory
    }
}

/// Why a shelf didn't hand out a file.
#[derive(Clone, Copy, Debug, PartialEq, Eq)]
pub enum ShelfFault {
    /// It couldn't be read, or there is no such file.
    Failed,
    /// It has more bytes than there was room for.
    TooLong,
    NoMemory,
}

impl From<AllocError> for ShelfFault {
    ghost from_gives = { λ _ e. e ≡ ShelfFault.NoMemory };

    fn from(_e: AllocError) -> ShelfFault {
        ShelfFault::NoMemory
    }
}

/// A place with named files. It may tell what they hold, and it counts its faults.
pub trait Shelf {
    ghost told: { Self → Option Files };

    ghost faults: { Self → ℕ };

    /// The bytes of the file of this name, at most `room` of them.
    fn load(&mut self, alloc: Global, name: &str, room: usize) -> Result<Vec<u8>, ShelfFault>
        ensures within { IfOk result (λ bytes. length bytes.items ≤ room) }
        ensures loads { HandsOut (told self.old) name.now room result }
        ensures kept { told self.new ≡ told self.old }
        ensures count { faults self.old ≤ faults self.new }
        ensures cause { FailsBy (told self.old) name.now (faults self.old) (faults self.new) result };
}

/// A put failed.
#[derive(Clone, Copy, Debug, PartialEq, Eq)]
pub struct Failed;

/// A text couldn't be written whole.
#[derive(Clone, Copy, Debug, PartialEq, Eq)]
pub struct SinkFault;

/// A place that takes bytes. It may tell what it holds, and it counts its faults.
pub trait Sink {
    ghost told: { Self → Option (List ℕ) };

    ghost faults: { Self → ℕ };

    /// Takes a front of the piece, and answers how many bytes that are.
    fn put(&mut self, piece: &[u8]) -> Result<usize, Failed>
        ensures within { IfOk result (λ n. n ≤ length piece.now) }
        ensures taken { IfOk result (λ n. told self.new ≡ gained (told self.old) (take n piece.now)) }
        ensures failed { OnErr result (told self.new ≡ told self.old) }
        ensures count { faults self.old ≤ faults self.new }
        ensures cause { OnErr result (HasRisen (faults self.old) (faults self.new)) }
        // A put that takes nothing of a piece that isn't empty is a fault too.
        ensures nothing { IfOk result (λ n. n ≡ 0 → 0 < length piece.now
            → HasRisen (faults self.old) (faults self.new)) };
}
