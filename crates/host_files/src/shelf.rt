//! Files as a shelf.

ghost use Rattle.std.specs.Prelude.{None};

use std::alloc::Global;
use std::io::{ErrorKind, Read};
use std::rt::Files;
use std::{fs, io};
use tester_types::{Shelf, ShelfFault};

/// Files by their paths. It tells nothing of what they hold, and counts the loads that fail.
#[derive(Drop)]
pub struct FileShelf<'a, R: Files> {
    rt: &'a R,
    faults: u64,
}

impl<'a, R: Files> FileShelf<'a, R> {
    /// The files that the runtime reaches, without faults so far.
    pub fn new(rt: &'a R) -> Self {
        FileShelf { rt, faults: 0 }
    }

    /// The bytes of a file, and one more than `room` where it has as many.
    fn read(&self, alloc: Global, name: &str, room: usize) -> io::Result<Vec<u8>> {
        let mut bytes = Vec::new(alloc);
        let file = fs::open(self.rt, name)?;
        let _ = file
            .take((room as u64).saturating_add(1))
            .read_to_end(&mut bytes)?;
        Ok(bytes)
    }
}

impl<R: Files> Shelf for FileShelf<'_, R> {
    ghost told = { λ _. None };

    ghost faults = { λ s. s.faults };

    fn load(&mut self, alloc: Global, name: &str, room: usize) -> Result<Vec<u8>, ShelfFault> {
        match self.read(alloc, name, room) {
            Ok(bytes) if bytes.len() > room => Err(ShelfFault::TooLong),
            Ok(bytes) => Ok(bytes),
            Err(e) if e.kind() == ErrorKind::OutOfMemory => Err(ShelfFault::NoMemory),
            Err(_) => {
                self.faults = self.faults.saturating_add(1);
                Err(ShelfFault::Failed)
            }
        }
    }
}
