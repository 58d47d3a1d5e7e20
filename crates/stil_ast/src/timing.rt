//! Timings, waveform tables and waveforms (IEEE 1450-1999, clause 18).

use crate::name::{NamedList, Quoted, SigRef};
use tester_types::{Act, Items, Text};

/// Acts in text order.
pub type ActList = Items<Act>;

/// `'time' act;` or `'time' act/act/..;`.
#[derive(Debug, Drop)]
pub struct EventDecl {
    /// When it comes after the cycle's start.
    pub time: Quoted,
    /// One act for all characters of the waveform, or one for each in order.
    pub acts: ActList,
}

/// The events of a waveform in text order.
pub type EventDeclList = Items<EventDecl>;

/// `characters { events }`.
#[derive(Debug, Drop)]
pub struct WaveDecl {
    /// Waveform characters, none twice.
    pub characters: Text,
    pub events: EventDeclList,
}

/// Waveforms in text order.
pub type WaveDeclList = Items<WaveDecl>;

/// `ref { waveforms }`.
#[derive(Debug, Drop)]
pub struct SignalWaves {
    pub reference: SigRef,
    pub waves: WaveDeclList,
    /// The statement's line, from 1.
    pub line: u32,
}

/// What all Waveforms blocks of a table hold, in text order.
pub type SignalWavesList = Items<SignalWaves>;

/// `WaveformTable name { .. }`.
#[derive(Debug, Drop)]
pub struct TableDecl {
    pub name: Text,
    pub period: Option<Quoted>,
    /// The tables that are copied in first, in text order.
    pub inherits: NamedList,
    pub waveforms: SignalWavesList,
    /// The statement's line, from 1.
    pub line: u32,
}

/// Tables in text order.
pub type TableDeclList = Items<TableDecl>;

/// A Timing block; its name is empty where it has none.
#[derive(Debug, Drop)]
pub struct TimingBlock {
    pub name: Text,
    pub tables: TableDeclList,
}

/// The Timing blocks in text order.
pub type TimingBlockList = Items<TimingBlock>;
