//! A sink in memory, with puts that fail or take nothing where they are told to.

ghost use Rattle.std.specs.Prelude.{◌≡◌, ◌<◌, ◌≤◌, ◌+◌, [], IfOk, IfSome, OnErr, Some, length, take, vec_len, vec_capacity};
ghost use Rattle.tester_types.specs.Memory.{SinkState, how_much, is_fault, put_answer, after_put};
ghost use Rattle.tester_types.specs.Outside.{HasRisen, gained};

use crate::outside::{Failed, NoMemory, Sink};
use std::alloc::Global;
use std::marker::Model;

/// A sink in memory.
#[derive(Drop)]
pub struct MemSink {
    bytes: Vec<u8>,
    room: usize,
    most: usize,
    failing: Vec<u64>,
    empty: Vec<u64>,
    calls: u64,
    faults: u64,
}

impl Model for MemSink {
    ghost Value = { SinkState };

    ghost view = { λ s. record {
      bytes = s.bytes.items;
      room = s.room;
      most = s.most;
      failing = s.failing.items;
      empty = s.empty.items;
      calls = s.calls;
      faults = s.faults;
    } };

    ghost invariant = { λ s. (vec_len s.bytes ≤ s.room) × (s.room ≤ vec_capacity s.bytes) };
}

impl MemSink {
    /// A sink that takes at most `room` bytes in all and `most` of them in a put. Puts are counted from 1:
    /// those in `failing` fail, and those in `empty` take nothing. Its room is reserved here.
    pub fn new(
        alloc: Global,
        room: usize,
        most: usize,
        failing: Vec<u64>,
        empty: Vec<u64>,
    ) -> Result<MemSink, NoMemory>
        requires { 1 ≤ most }
        ensures { IfOk result (λ s. s ≡ record {
          bytes = [];
          room = room;
          most = most;
          failing = failing.items;
          empty = empty.items;
          calls = 0;
          faults = 0;
        }) }
    {
        let bytes = Vec::with_capacity(alloc, room)?;
        Ok(MemSink {
            bytes,
            room,
            most,
            failing,
            empty,
            calls: 0,
            faults: 0,
        })
    }

    /// How many bytes of a piece of this length the next put takes; none where it fails.
    fn how_much(&self, len: usize) -> Option<usize>
        ensures much { result ≡ how_much self.now len }
        ensures fits { IfSome result (λ taken. (taken ≤ len) × (length self.now.bytes + taken ≤ self.now.room)) }
    {
        let call = self.calls.saturating_add(1);
        let left = self.room - self.bytes.len();
        if self.failing.contains(&call) || (left == 0 && len != 0) {
            None
        } else if self.empty.contains(&call) {
            Some(0)
        } else {
            Some(len.min(self.most).min(left))
        }
    }

    /// What it holds.
    pub fn bytes(&self) -> &[u8]
        ensures { result.now ≡ self.now.bytes }
    {
        self.bytes.as_slice()
    }
}

/// A failure is a fault, and so is taking nothing of something.
fn is_fault(much: Option<usize>, len: usize) -> bool
    ensures { result ≡ is_fault much len }
{
    match much {
        None => true,
        Some(taken) => taken == 0 && len != 0,
    }
}

impl Sink for MemSink {
    ghost told = { λ s. Some s.bytes };

    ghost faults = { λ s. s.faults };

    fn put(&mut self, piece: &[u8]) -> Result<usize, Failed>
        ensures does { self.new ≡ after_put self.old piece.now }
        ensures answer { result ≡ put_answer (how_much self.old (length piece.now)) }
        ensures within { IfOk result (λ n. n ≤ length piece.now) }
        ensures taken { IfOk result (λ n. Some self.new.bytes ≡ gained (Some self.old.bytes) (take n piece.now)) }
        ensures failed { OnErr result (Some self.new.bytes ≡ Some self.old.bytes) }
        ensures count { self.old.faults ≤ self.new.faults }
        ensures cause { OnErr result (HasRisen self.old.faults self.new.faults) }
        ensures nothing { IfOk result (λ n. n ≡ 0 → 0 < length piece.now → HasRisen self.old.faults self.new.faults) }
    {
        let much = self.how_much(piece.len());
        self.calls = self.calls.saturating_add(1);
        if is_fault(much, piece.len()) {
            self.faults = self.faults.saturating_add(1);
        }
        match much {
            None => Err(Failed),
            Some(taken) => {
                self.bytes.extend_from_slice(&piece[..taken]).unwrap();
                Ok(taken)
            }
        }
    }
}
