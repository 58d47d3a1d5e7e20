//! A tape of drive calls, over flat data whose room is reserved when it is made.
ghost use Rattle.std.specs.Prelude.{◌≡◌, ℕ, ◌+◌, ◌<◌, ◌≤◌, [], ◌∷◌, ◌++◌, length, IfOk, OnOk, OnErr, ◌^◌, take, drop, slice_index_or, IsTrue, ◌↔◌};
ghost use Rattle.die_sim.specs.Tape.{TapeState};

use std::alloc::Global;
use std::marker::Model;
use tester_types::{Drive, NoMemory};

/// One drive call: its instant in femtoseconds, and where its drives stand among those of all calls.
#[derive(Clone, Copy, Debug, PartialEq, Eq)]
struct Call {
    at: u128,
    from: usize,
    to: usize,
}

/// Drive calls in their order.
#[derive(Drop)]
pub struct Tape {
    calls: Vec<Call>,
    drives: Vec<(u16, Drive)>,
    left: u32,
}

impl Model for Tape {
    ghost use Rattle.std.specs.Prelude.{map, ◌+◌, ◌≤◌, vec_len, vec_capacity};
    ghost use Rattle.die_sim.specs.Tape.{TapeState};

    ghost Value = { TapeState };

    ghost use Rattle.die_sim.specs.Taping.{call_of, AreWithin};

    ghost view = { λ t. record { calls = map (call_of t.drives.items) t.calls.items; left = t.left } };

    ghost invariant = { λ t. (vec_len t.calls + t.left ≤ vec_capacity t.calls)
        × (vec_len t.drives + t.left ≤ vec_capacity t.drives)
        × AreWithin (vec_len t.drives) t.calls.items };
}

impl Tape {
    /// An empty tape with this room. A call of d drives takes d + 1 of it.
    pub fn new(alloc: Global, room: u32) -> Result<Tape, NoMemory>
        ensures { IfOk result (λ t. t ≡ record { calls = []; left = room }) }
    {
        let calls = Vec::with_capacity(alloc, room as usize)?;
        let drives = Vec::with_capacity(alloc, room as usize)?;
        Ok(Tape {
            calls,
            drives,
            left: room,
        })
    }

    /// More room. Where memory for it is wanting, the tape is as it was.
    pub fn reserve(&mut self, room: u32) -> Result<(), NoMemory>
        requires { self.old.left + room < 2 ^ 32 }
        ensures calls { self.new.calls ≡ self.old.calls }
        ensures more { OnOk result (self.new.left ≡ self.old.left + room) }
        ensures same { OnErr result (self.new.left ≡ self.old.left) }
    {
        let left = self.left + room;
        self.calls.reserve(left as usize)?;
        self.drives.reserve(left as usize)?;
        self.left = left;
        Ok(())
    }

    /// One more call.
    pub fn add(&mut self, at: u128, drives: &[(u16, Drive)])
        requires { length drives.now + 1 ≤ self.old.left }
        ensures calls { self.new.calls ≡ self.old.calls ++ (at, drives.now) ∷ [] }
        ensures left { self.new.left + (length drives.now + 1) ≡ self.old.left }
    {
        let from = self.drives.len();
        let to = from + drives.len();
        self.drives.extend_from_slice(drives).unwrap();
        self.calls.push(Call { at, from, to }).unwrap();
        self.left -= drives.len() as u32 + 1;
    }

    /// The room that is left.
    pub fn left(&self) -> u32
        ensures { result ≡ self.now.left }
    {
        self.left
    }

    /// How many calls there are.
    pub fn len(&self) -> usize
        ensures { result ≡ length self.now.calls }
    {
        self.calls.len()
    }

    /// Whether there is no call.
    pub fn is_empty(&self) -> bool
        ensures { IsTrue result ↔ (length self.now.calls ≡ 0) }
    {
        self.calls.is_empty()
    }

    /// The instant of the call at a place, counted from 0, in femtoseconds.
    pub fn instant(&self, place: usize) -> u128
        requires { place < length self.now.calls }
        ensures { result ≡ (slice_index_or self.now.calls place (0, [])).0 }
    {
        self.calls[place].at
    }

    /// The drives of the call at a place, counted from 0.
    pub fn drives(&self, place: usize) -> &[(u16, Drive)]
        requires { place < length self.now.calls }
        ensures { result.now ≡ (slice_index_or self.now.calls place (0, [])).1 }
    {
        let call = self.calls[place];
        &self.drives.as_slice()[call.from..call.to]
    }
}
