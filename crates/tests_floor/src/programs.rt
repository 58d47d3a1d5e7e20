//! Saved programs of a few signals, for tests.

use bench_net::Netlist;
use page_code::{Code, load};
use std::alloc::Global;
use std::sync::Arc;
use std::test::Fail;
use tester_types::NoMemory;

/// The bytes of a signal: its direction and its name.
pub(crate) type Signal = (u8, u8);

/// The saved program of these signals, of which there are few, and of tables with their number before them, with one
/// executive that does nothing.
fn program(alloc: Global, signals: &[Signal], tables: &[u8]) -> Result<Vec<u8>, NoMemory> {
    let Ok(count) = u16::try_from(signals.len()) else {
        return Err(NoMemory);
    };
    let mut bytes = Vec::from_slice(alloc, &[0xD7, b'S', b'T', b'P', 1, 0, 0, 0])?;
    bytes.extend_from_slice(&count.to_le_bytes())?;
    for (direction, name) in signals {
        bytes.extend_from_slice(&[*direction, 1, 0, *name])?;
    }
    bytes.extend_from_slice(tables)?;
    bytes.extend_from_slice(&[0; 4])?;
    bytes.extend_from_slice(&[1, 0, 0, 0, 0, 0, 1, 0, 0, 0, 4])?;
    bytes.extend_from_slice(&[0; 15])?;
    Ok(bytes)
}

/// The code of this program.
pub(crate) fn code(alloc: Global, signals: &[Signal], tables: &[u8]) -> Result<Code, Fail> {
    let bytes = program(alloc, signals, tables)?;
    let code = load(alloc, &bytes).ok().ok_or("the bytes are a code")?;
    Ok(code)
}

/// The netlist of a short text.
pub(crate) fn read_netlist(alloc: Global, text: &[u8]) -> Result<Arc<Netlist>, Fail> {
    if text.len() > 1_000 {
        return Err(Fail::from("a short text"));
    }
    let net = Netlist::read(alloc, text).ok().ok_or("a netlist")?;
    Ok(Arc::new(alloc, net)?)
}
