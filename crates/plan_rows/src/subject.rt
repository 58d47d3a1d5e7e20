//! What a row is about, in numbers: one row of a plan may be about it.

ghost use Rattle.std.specs.Prelude.{◌≡◌, ◌∷◌, ◌++◌, IfOk};
ghost use Rattle.plan_rows.specs.Inside.{key_of, ending_key};

use crate::row::{Ending, Row};
use std::alloc::{AllocError, Global};

/// Some numbers and then the bytes of a text.
fn key(alloc: Global, head: &[u16], text: &[u8]) -> Result<Vec<u16>, AllocError>
    ensures { IfOk result (λ key. key.items ≡ head.now ++ text.now) }
{
    let mut key = Vec::from_slice(alloc, head)?;
    for byte in text {
        key.push(u16::from(*byte))?;
    }
    Ok(key)
}

/// What a bin's row is about.
fn ending_key(alloc: Global, ending: Ending) -> Result<Vec<u16>, AllocError>
    ensures { IfOk result (λ key. key.items ≡ 6 ∷ ending_key ending) }
{
    match ending {
        Ending::Pass => key(alloc, &[6, 0], b""),
        Ending::Fail(executive) => key(alloc, &[6, 1], &[executive]),
        Ending::Stopped => key(alloc, &[6, 2], b""),
        Ending::Contact => key(alloc, &[6, 3], b""),
    }
}

/// What a row is about.
pub(crate) fn key_of(alloc: Global, row: &Row) -> Result<Vec<u16>, AllocError>
    ensures { IfOk result (λ key. key.items ≡ key_of row.now) }
{
    match row {
        Row::Lot(_) => key(alloc, &[0], b""),
        Row::Clock(_) => key(alloc, &[1], b""),
        Row::Bind(bind) => key(alloc, &[2], bind.signal.as_slice()),
        Row::Die(die) => key(alloc, &[3, u16::from(die.site)], die.name.as_slice()),
        Row::Fault(fault) => key(
            alloc,
            &[4, u16::from(fault.site), fault.die],
            fault.net.as_slice(),
        ),
        Row::Stop(stop) => key(
            alloc,
            &[5, u16::from(stop.site), stop.die, u16::from(stop.number)],
            b"",
        ),
        Row::Bin(bin) => ending_key(alloc, bin.ending),
        Row::Skew(skew) => key(alloc, &[7, u16::from(skew.site)], skew.signal.as_slice()),
    }
}
