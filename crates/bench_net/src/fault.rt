//! Why a text is no netlist.
ghost use Rattle.std.specs.Prelude.{◌≡◌, length, IfOk};
ghost use Rattle.bench_net.specs.declared.fault.NetFault.TheVariants.{NoMemory};

use std::alloc::{AllocError, AllocFailed, Global};
use std::marker::Model;

/// The name of a net: bytes from `!` to `~`.
#[derive(Debug, Drop)]
pub struct NetName {
    bytes: Vec<u8>,
}

impl Model for NetName {
    ghost use Rattle.std.specs.Prelude.{List, ℕ};

    ghost Value = { List ℕ };

    ghost view = { λ n. n.bytes.items };
}

impl NetName {
    /// The name of these bytes.
    pub fn from_slice(alloc: Global, bytes: &[u8]) -> Result<Self, AllocError>
        ensures { IfOk result (λ n. n ≡ bytes.now) }
    {
        let bytes = Vec::from_slice(alloc, bytes)?;
        Ok(NetName { bytes })
    }

    /// The name that a `Vec` holds.
    pub fn from_vec(bytes: Vec<u8>) -> Self
        ensures { result ≡ bytes.items }
    {
        NetName { bytes }
    }

    /// The name as a `Vec`.
    pub fn into_vec(self) -> Vec<u8>
        ensures { result.items ≡ self }
    {
        self.bytes
    }

    /// The name's bytes.
    pub fn as_slice(&self) -> &[u8]
        ensures { result.now ≡ self.now }
    {
        self.bytes.as_slice()
    }

    /// How many bytes the name has.
    pub fn len(&self) -> usize
        ensures { result ≡ length self.now }
    {
        self.bytes.len()
    }
}

/// Why a text is refused: the first of these in this order, and each at its first place in the
/// text.
#[derive(Debug, Drop)]
pub enum NetFault {
    /// There is no memory for the netlist.
    NoMemory,
    /// The first line, counted from 1, that is neither empty nor INPUT(net), OUTPUT(net) or net =
    /// FUNCTION(net, net, ..).
    Line(u32),
    /// The text names more than 65,536 nets.
    OutOfRange,
    /// The net of the first NOT, BUF, BUFF or DFF that has not exactly one input, or of another
    /// gate that has more than 1,024.
    Arity(NetName),
    /// The first net that a line gives a second driver.
    Twice(NetName),
    /// The first net that is used, by a gate, a flip-flop or as an output, and has no driver.
    Missing(NetName),
    /// The first net, in the order of the lines that drive them, whose gate follows itself with no
    /// flip-flop between, or follows such a gate.
    Loop(NetName),
}

impl From<AllocError> for NetFault {
    ghost from_gives = { λ _ fault. fault ≡ NoMemory };

    fn from(_: AllocError) -> Self {
        NetFault::NoMemory
    }
}

impl<T: Drop> From<AllocFailed<T>> for NetFault {
    ghost from_gives = { λ _ fault. fault ≡ NoMemory };

    fn from(_: AllocFailed<T>) -> Self {
        NetFault::NoMemory
    }
}
