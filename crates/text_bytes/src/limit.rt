//! The limits of texts, of what they declare and of testers. They are this project's own.

/// The most bytes of a file.
pub const MOST_BYTES: usize = 16_777_216;

/// The most bytes of the name of a signal, a group, a net or a cell.
pub const LONGEST_NAME: usize = 1024;

/// The most bytes of the name of a die or a file.
pub const LONGEST_LABEL: usize = 255;

/// The most signals.
pub const MOST_SIGNALS: usize = 1024;

/// The most groups.
pub const MOST_GROUPS: usize = 4096;

/// The most executives.
pub const MOST_EXECUTIVES: usize = 64;

/// The most chains of a scan structure.
pub const MOST_CHAINS: usize = 256;

/// The most cells of a chain, and its greatest length.
pub const MOST_CELLS: usize = 1 << 20;

/// How often `\rN` may repeat what stands behind it.
pub const MOST_REPEATS: u64 = 1 << 20;

/// How often a Loop may run its body.
pub const MOST_PASSES: u64 = 1 << 48;

/// The most variables of an executive.
pub const MOST_VARIABLES: usize = 1024;

/// The most tables of a Timing.
pub const MOST_TABLES: usize = 64;

/// The most tables of all executives.
pub const MOST_CODE_TABLES: usize = 4096;

/// The most patterns that an executive plays.
pub const MOST_PATTERNS: usize = 4096;

/// The most cycles that are printed one by one.
pub const MOST_LISTED: u64 = 65_536;

/// The most events of a waveform.
pub const MOST_EVENTS: usize = 16;

/// The greatest period, in femtoseconds.
pub const LONGEST_PERIOD: u64 = 1_000_000_000_000;

/// The most waves of all executives.
pub const MOST_WAVES: usize = 1 << 20;

/// How deep macros and procedures may call one another.
pub const DEEPEST_CALLS: usize = 64;

/// How deep loops may nest, over all calls.
pub const DEEPEST_LOOPS: usize = 64;

/// The most statements walked and signals assigned.
pub const MOST_WALKED: u32 = 1 << 26;

/// The greatest measure of all executives.
pub const MOST_MEASURE: u32 = 1 << 22;

/// The most cycles of an executive.
pub const MOST_CYCLES: u64 = 1 << 48;

/// The most characters of all distinct rows.
pub const MOST_ROW_CHARACTERS: u64 = 1 << 28;

/// The most nets of a netlist.
pub const MOST_NETS: usize = 65_536;

/// The most inputs of a gate.
pub const MOST_INPUTS: usize = 1024;

/// The most sites of a tester, which run side by side.
pub const MOST_SITES: usize = 16;

/// The most sites that a lot plan may name, over all testers.
pub const MOST_PLAN_SITES: usize = 64;

/// The most parts of a lot, or of a grade.
pub const MOST_PARTS: u16 = 4096;
