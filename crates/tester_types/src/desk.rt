//! The desk that says when a site is to stop, and the gate that a site passes before each batch.

ghost use Rattle.std.specs.Prelude.{◌≡◌, ℕ, ◌+◌, ◌≤◌, Bool, true, false, unwrap_or, slice_get, vec_len, min, length};
ghost use Rattle.tester_types.specs.Desk.{Says, DeskList, stops_said};
ghost use Rattle.tester_types.specs.declared.desk.Ask.TheVariants.{Nothing};

use std::marker::Model;
use std::sync::Wait;
use std::thread::Threads;

/// What the desk says.
#[derive(Clone, Copy, Debug, PartialEq, Eq)]
pub enum Ask {
    Nothing,
    /// The site of this number is to stop.
    Stop(u8),
}

/// Who says, while sites run, which of them are to stop.
pub trait Desk: Send {
    /// How many stops it has said for each site.
    ghost stops: { Self → ℕ → ℕ };
    /// Whether it was ever asked.
    ghost asked: { Self → Bool };

    /// What it says next.
    fn next(&mut self) -> Ask
        ensures says { Says result (stops self.old) (stops self.new) }
        ensures asked { asked self.new ≡ true };
}

/// A desk that says nothing ever.
#[derive(Debug, Drop)]
pub struct SilentDesk {
    asked: bool,
}

impl SilentDesk {
    /// A desk that was not asked yet.
    pub fn new() -> SilentDesk
        ensures { result ≡ record { asked = false } }
    {
        SilentDesk { asked: false }
    }
}

impl Desk for SilentDesk {
    ghost stops = { λ _ _. 0 };

    ghost asked = { λ d. d.asked };

    fn next(&mut self) -> Ask
        ensures says { Says result (λ _. 0) (λ _. 0) }
        ensures asked { self.new.asked ≡ true }
        ensures silent { result ≡ Ask.Nothing }
    {
        self.asked = true;
        Ask::Nothing
    }
}

/// A desk that answers a list, and then nothing.
#[derive(Drop)]
pub struct ListDesk {
    asks: Vec<Ask>,
    given: usize,
    asked: bool,
}

impl Model for ListDesk {
    ghost Value = { DeskList };

    ghost view = { λ d. record { asks = d.asks.items; given = d.given; asked = d.asked } };

    ghost invariant = { λ d. d.given ≤ vec_len d.asks };
}

impl ListDesk {
    /// A desk that was not asked yet, and answers these in order.
    pub fn new(asks: Vec<Ask>) -> ListDesk
        ensures { result ≡ record { asks = asks.items; given = 0; asked = false } }
    {
        ListDesk {
            asks,
            given: 0,
            asked: false,
        }
    }
}

impl Desk for ListDesk {
    ghost stops = { stops_said };

    ghost asked = { λ d. d.asked };

    fn next(&mut self) -> Ask
        ensures says { Says result (stops_said self.old) (stops_said self.new) }
        ensures asked { self.new.asked ≡ true }
        ensures answer { result ≡ unwrap_or (slice_get self.old.asks self.old.given) Ask.Nothing }
        ensures given { self.new.given ≡ min (self.old.given + 1) (length self.old.asks) }
        ensures kept { self.new.asks ≡ self.old.asks }
    {
        self.asked = true;
        match self.asks.get(self.given) {
            Some(ask) => {
                let ask = *ask;
                self.given += 1;
                ask
            }
            None => Ask::Nothing,
        }
    }
}

/// What a site passes before each batch. It may wait, and changes nothing else.
pub trait Gate: Sync {
    /// Lets the site pass that is to run the batch of this number, counted in its work from 0.
    fn pass<R: Threads + Wait + Sync>(&self, rt: &R, site: u8, batch: u64);
}

/// A gate that lets each site pass at once.
#[derive(Clone, Copy, Debug)]
pub struct OpenGate;

impl Gate for OpenGate {
    fn pass<R: Threads + Wait + Sync>(&self, _rt: &R, _site: u8, _batch: u64) {}
}
