//! A shelf in memory, with loads that fail where they are told to.

ghost use Rattle.std.specs.Prelude.{◌≡◌, ◌≤◌, length, IfOk, None, Some, MatchOption};
ghost use Rattle.tester_types.specs.Memory.{ShelfState, LoadAnswers, after_load, load_fails, files_seen};
ghost use Rattle.tester_types.specs.Outside.{HandsOut, FailsBy, file_of};

use crate::outside::{Shelf, ShelfFault};
use std::alloc::Global;
use std::marker::Model;

/// A shelf in memory.
#[derive(Drop)]
pub struct MemShelf {
    files: Vec<(String, Vec<u8>)>,
    failing: Vec<u64>,
    calls: u64,
    faults: u64,
}

impl Model for MemShelf {
    ghost Value = { ShelfState };

    ghost view = { λ s. record {
      files = files_seen s.files.items;
      failing = s.failing.items;
      calls = s.calls;
      faults = s.faults;
    } };
}

impl MemShelf {
    /// A shelf with these files, of which the first of a name counts. Loads are counted from 1, and those in
    /// `failing` fail.
    pub fn new(files: Vec<(String, Vec<u8>)>, failing: Vec<u64>) -> MemShelf
        ensures { result ≡ record {
          files = files_seen files.items;
          failing = failing.items;
          calls = 0;
          faults = 0;
        } }
    {
        MemShelf {
            files,
            failing,
            calls: 0,
            faults: 0,
        }
    }

    /// Whether the next load is one of those that fail.
    fn load_fails(&self) -> bool
        ensures { result ≡ load_fails self.now }
    {
        self.failing.contains(&self.calls.saturating_add(1))
    }
}

/// The bytes of the first file of this name.
fn find_file<'a>(files: &'a [(String, Vec<u8>)], name: &str) -> Option<&'a [u8]>
    ensures { MatchOption result (file_of (files_seen files.now) name.now ≡ None)
        (λ bytes. file_of (files_seen files.now) name.now ≡ Some bytes.now) }
{
    for file in files {
        if file.0.as_str() == name {
            return Some(file.1.as_slice());
        }
    }
    None
}

impl Shelf for MemShelf {
    ghost told = { λ s. Some s.files };

    ghost faults = { λ s. s.faults };

    fn load(&mut self, alloc: Global, name: &str, room: usize) -> Result<Vec<u8>, ShelfFault>
        ensures does { self.new ≡ after_load self.old }
        ensures answers { LoadAnswers self.old name.now room result }
        ensures within { IfOk result (λ bytes. length bytes.items ≤ room) }
        ensures loads { HandsOut (Some self.old.files) name.now room result }
        ensures kept { Some self.new.files ≡ Some self.old.files }
        ensures count { self.old.faults ≤ self.new.faults }
        ensures cause { FailsBy (Some self.old.files) name.now self.old.faults self.new.faults result }
    {
        let fails = self.load_fails();
        self.calls = self.calls.saturating_add(1);
        if fails {
            self.faults = self.faults.saturating_add(1);
            return Err(ShelfFault::Failed);
        }
        let Some(bytes) = find_file(self.files.as_slice(), name) else {
            return Err(ShelfFault::Failed);
        };
        if bytes.len() > room {
            return Err(ShelfFault::TooLong);
        }
        Ok(Vec::from_slice(alloc, bytes)?)
    }
}
