//! Why bytes are no saved program.

use answers::Short;

/// The first refusal that reading from left to right meets.
#[derive(Clone, Copy, Debug, PartialEq, Eq)]
pub enum SavedFault {
    NoMemory,
    /// One of the first four bytes differs from 0xD7, 0x53, 0x54 and 0x50.
    BadMagic,
    /// Another version than 1 and 2.
    BadVersion,
    /// The bytes end before a field does; their number.
    Torn(u64),
    /// A condition fails; the place of a first byte.
    BadCode(u64),
}

/// A refusal met while the bytes from some place on are read.
#[derive(Clone, Copy, Debug, PartialEq, Eq)]
pub(crate) enum Refusal {
    BadMagic,
    BadVersion,
    Torn,
    /// So many bytes are left at the place where a condition fails.
    BadCode(usize),
}

/// Why a part could not be read.
pub(crate) type ReadError = Short<Refusal>;
