//! What the names in a pattern are looked up in.

use crate::bodies::Bodies;
use signal_groups::SignalTable;
use wave_tables::WaveSet;

/// The names of the blocks in which the bodies of a pattern stand, empty where a block has none.
#[derive(Clone, Copy)]
pub struct BlockTitles<'a> {
    pub pattern: &'a [u8],
    pub macros: &'a [u8],
    pub procedures: &'a [u8],
}

/// What a pattern stands on: the signals of the text, the waveform tables of the executive, the macros and the
/// procedures that it may name, and the names of the blocks in which all this stands.
#[derive(Clone, Copy)]
pub struct PatternScope<'s, 'a> {
    pub signals: &'s SignalTable,
    pub tables: &'s WaveSet,
    pub macros: &'s Bodies<'a>,
    pub procedures: &'s Bodies<'a>,
    pub titles: BlockTitles<'s>,
    /// For each signal, whether its direction is Out.
    pub outs: &'s [bool],
    /// The signals at which scan chains end, in declared order.
    pub scan_outs: &'s [u16],
}
