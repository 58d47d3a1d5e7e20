//! An instruction, and what one cycle runs.

/// What one cycle runs: a row of characters under a table of waveforms. The mark is 0, or one more
/// than the number of cells that a scan chain has shifted out before.
#[derive(Clone, Copy, Debug, PartialEq, Eq)]
pub struct Entry {
    pub table: u16,
    pub row: u32,
    pub mark: u32,
}

/// One instruction of an executive.
#[derive(Clone, Copy, Debug, PartialEq, Eq)]
pub enum Instr {
    /// Runs the cycle of this row under this table, so many times over.
    Run {
        table: u16,
        row: u32,
        mark: u32,
        times: u32,
    },
    /// Begins a loop: what stands up to its `End` runs so many times over.
    Loop {
        times: u64,
    },
    /// Ends the innermost loop that is open.
    End,
    /// Ends the executive.
    Done,
}
