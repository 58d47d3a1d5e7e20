//! A writer as a sink.

ghost use Rattle.std.specs.Prelude.{None};

use std::io::Write;
use tester_types::{Failed, Sink};

/// A writer. It tells nothing of what it holds, and counts the puts that fail or take nothing. What the writer holds back
/// is written at the end, by `finish`.
#[derive(Drop)]
pub struct WriterSink<W: Write + Drop> {
    writer: W,
    faults: u64,
}

impl<W: Write + Drop> WriterSink<W> {
    /// The writer, without faults so far.
    pub fn new(writer: W) -> Self {
        WriterSink { writer, faults: 0 }
    }

    /// Writes what was held back.
    pub fn finish(mut self) -> Result<(), Failed> {
        match self.writer.flush() {
            Ok(()) => Ok(()),
            Err(_) => Err(Failed),
        }
    }
}

impl<W: Write + Drop> Sink for WriterSink<W> {
    ghost told = { λ _. None };

    ghost faults = { λ s. s.faults };

    fn put(&mut self, piece: &[u8]) -> Result<usize, Failed> {
        match self.writer.write(piece) {
            Ok(taken) => {
                if taken == 0 && !piece.is_empty() {
                    self.faults = self.faults.saturating_add(1);
                }
                Ok(taken)
            }
            Err(_) => {
                self.faults = self.faults.saturating_add(1);
                Err(Failed)
            }
        }
    }
}
