//! Gates that hold sites until something has come, and a desk that counts how often it is asked.

ghost use Rattle.std.specs.Prelude.{◌≡◌, true};
ghost use Rattle.tester_types.specs.Desk.{Says, stops_said};

use std::sync::atomic::{AtomicU64, Ordering};
use std::sync::{Arc, Wait};
use std::thread::{Threads, yield_now};
use tester_types::{Ask, Desk, Gate, ListDesk};

/// How often a gate looks before it lets a site through that nothing came for.
const LOOKS: u32 = 10_000_000;

/// Whether a word comes to 2 while it is looked at.
fn comes_to_two(word: &AtomicU64) -> bool {
    for _ in 0..LOOKS {
        if word.load(Ordering::SeqCst) >= 2 {
            return true;
        }
        yield_now();
    }
    false
}

/// A gate that holds each of two sites before its first batch until both have come.
#[derive(Drop)]
pub(crate) struct MeetingGate {
    pub came: AtomicU64,
    /// How many it let through before.
    pub late: AtomicU64,
}

impl Gate for MeetingGate {
    fn pass<R: Threads + Wait + Sync>(&self, _rt: &R, _site: u8, batch: u64) {
        if batch > 0 {
            return;
        }
        self.came.fetch_add(1, Ordering::SeqCst);
        if !comes_to_two(&self.came) {
            self.late.fetch_add(1, Ordering::SeqCst);
        }
    }
}

/// A gate that holds site 1 before its first batch until the desk was asked twice, when its first answer was passed on.
#[derive(Drop)]
pub(crate) struct AskedGate {
    pub asks: Arc<AtomicU64>,
    /// How many it let through before.
    pub late: AtomicU64,
}

impl Gate for AskedGate {
    fn pass<R: Threads + Wait + Sync>(&self, _rt: &R, site: u8, batch: u64) {
        if site != 1 || batch > 0 {
            return;
        }
        if !comes_to_two(&self.asks) {
            self.late.fetch_add(1, Ordering::SeqCst);
        }
    }
}

/// A desk with a list, which counts how often it is asked.
#[derive(Drop)]
pub(crate) struct CountedDesk {
    pub list: ListDesk,
    pub asks: Arc<AtomicU64>,
}

impl Desk for CountedDesk {
    ghost stops = { λ d. stops_said d.list };

    ghost asked = { λ d. d.list.asked };

    fn next(&mut self) -> Ask {
        self.asks.fetch_add(1, Ordering::SeqCst);
        self.list.next()
    }
}
