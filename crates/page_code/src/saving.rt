//! Saving a code, part by part, in the order in which it is read.

ghost use Rattle.std.specs.Prelude.{◌≡◌, ◌^◌, ◌-◌, ◌++◌, [], length, min};
ghost use Rattle.std.specs.List.{flat_map};
ghost use Rattle.std.specs.Int.{w16, w32};
ghost use Rattle.tester_types.specs.Outside.{Prints};
ghost use Rattle.packed_code.specs.Packed.{number};
ghost use Rattle.page_code.specs.Spelling as spell;
ghost use Rattle.page_code.specs.Spelling.{behind};
ghost use Rattle.page_code.specs.declared.version.Version.TheVariants.{One, Two};

use crate::version::Version;
use crate::write_fields::{Bytes, Count16, Count32, Each, Spelled, Then, followed};
use crate::write_rows::Rows;
use packed_code::{Code, CodeExec, CodeSignal};
use tester_types::{Sink, SinkFault, Table};

/// The bytes with which a saved program of a version begins: four known bytes, the version, and 0.
fn head_bytes(version: Version) -> [u8; 8]
    ensures { result ≡ spell.head version }
{
    let number = match version {
        Version::One => 1,
        Version::Two => 2,
    };
    [0xD7, 0x53, 0x54, 0x50, number, 0, 0, 0]
}

/// The rows of a version and the executives, each behind their count.
fn later_parts(
    version: Version,
    code: &Code,
) -> Then<Count32, Then<Rows<'_>, Then<Count16, Each<'_, CodeExec>>>>
    ensures { number w32 result.first.count
        ++ (behind (spell.row result.second.first.version) [] result.second.first.rows.now
        ++ (number w16 result.second.second.first.count ++ flat_map spell.exec result.second.second.second.items.now))
        ≡ spell.later version code.now }
{
    let rows = code.row_list();
    let execs = code.exec_list();
    followed(
        Count32 { count: rows.len() },
        followed(
            Rows { version, rows },
            followed(Count16 { count: execs.len() }, Each { items: execs }),
        ),
    )
}

/// The signals and the tables, each behind their count.
fn earlier_parts(
    code: &Code,
) -> Then<Count16, Then<Each<'_, CodeSignal>, Then<Count16, Each<'_, Table>>>>
    ensures { number w16 result.first.count ++ (flat_map spell.signal result.second.first.items.now
        ++ (number w16 result.second.second.first.count ++ flat_map spell.table result.second.second.second.items.now))
        ≡ spell.earlier code.now }
{
    let signals = code.signal_list();
    let tables = code.table_list();
    followed(
        Count16 {
            count: signals.len(),
        },
        followed(
            Each { items: signals },
            followed(
                Count16 {
                    count: tables.len(),
                },
                Each { items: tables },
            ),
        ),
    )
}

/// Puts the saved program of a version.
fn put_program<K: Sink>(version: Version, code: &Code, sink: &mut K) -> Result<(), SinkFault>
    ensures { Prints (K.told sink.old) (K.faults sink.old) (spell.program version code.now) result
        (K.told sink.new) (K.faults sink.new) }
{
    let bytes = head_bytes(version);
    let head = Bytes { bytes: &bytes };
    followed(
        head,
        followed(earlier_parts(code), later_parts(version, code)),
    )
    .put(sink)
}

/// Writes the saved program of a code, version 2. It takes no memory.
pub fn save<K: Sink>(code: &Code, sink: &mut K) -> Result<(), SinkFault>
    ensures { Prints (K.told sink.old) (K.faults sink.old) (spell.program Two code.now) result
        (K.told sink.new) (K.faults sink.new) }
{
    put_program(Version::Two, code, sink)
}

/// Only tests call it: writes the saved program of a code, version 1. It takes no memory.
pub fn save_old<K: Sink>(code: &Code, sink: &mut K) -> Result<(), SinkFault>
    ensures { Prints (K.told sink.old) (K.faults sink.old) (spell.program One code.now) result
        (K.told sink.new) (K.faults sink.new) }
{
    put_program(Version::One, code, sink)
}

/// How many bytes the saved program of a code has in version 2.
pub fn saved_len(code: &Code) -> u64
    ensures { result ≡ length (spell.program Two code.now) }
{
    let _conditions = code.signals();
    size_of(code)
}

/// How many bytes the saved program has in version 2, as far as 64 bits count.
fn size_of(code: &Code) -> u64
    ensures { result ≡ min (length (spell.program Two code.now)) (2 ^ 64 - 1) }
{
    let bytes = head_bytes(Version::Two);
    let head = Bytes { bytes: &bytes };
    followed(
        head,
        followed(earlier_parts(code), later_parts(Version::Two, code)),
    )
    .size()
}
