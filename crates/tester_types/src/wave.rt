//! Waveforms: what a signal does in a cycle, and the tables that say so.

use crate::items::Items;
use crate::wave_list::WaveList;

/// A text as its bytes.
pub type Text = Items<u8>;

/// Texts in order.
pub type TextList = Items<Text>;

/// What a drive event does to a signal (IEEE 1450, the events D, U, Z, N and P).
#[derive(Clone, Copy, Debug, PartialEq, Eq)]
pub enum Push {
    Down,
    Up,
    Off,
    Unknown,
    /// The last level, Down or Up, to which the signal was driven.
    Prior,
}

/// What a compare event asks of a signal (IEEE 1450, the events L, H, T, l, h, t and X).
#[derive(Clone, Copy, Debug, PartialEq, Eq)]
pub enum Look {
    Low,
    High,
    Off,
    LowWindow,
    HighWindow,
    OffWindow,
    /// No comparison; it closes a window.
    Close,
}

/// A drive or a look.
#[derive(Clone, Copy, Debug, PartialEq, Eq)]
pub enum Act {
    Push(Push),
    Look(Look),
}

/// An act at a time after its cycle's start, in femtoseconds.
#[derive(Clone, Copy, Debug, PartialEq, Eq)]
pub struct Event {
    pub time: u64,
    pub act: Act,
}

/// Events in written order.
pub type EventList = Items<Event>;

/// What a signal does in a cycle in which it has this character.
#[derive(Debug, Drop)]
pub struct Wave {
    /// The signal's number in declared order, from 0.
    pub signal: u16,
    /// The waveform character, an ASCII letter or digit.
    pub character: u8,
    pub events: EventList,
}

/// A waveform table (IEEE 1450, WaveformTable).
#[derive(Debug, Drop)]
pub struct Table {
    pub name: Text,
    /// The length of a cycle, in femtoseconds.
    pub period: u64,
    pub waves: WaveList,
}

/// Tables in order.
pub type TableList = Items<Table>;
