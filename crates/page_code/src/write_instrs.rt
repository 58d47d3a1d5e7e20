//! Saving instructions.

ghost use Rattle.std.specs.Prelude.{◌≡◌, ◌≤◌, ◌^◌, ◌-◌, OnErr, length, min};
ghost use Rattle.tester_types.specs.Outside.{HasRisen, Puts};
ghost use Rattle.packed_code.specs.Packed as packed;

use crate::write_fields::Spelled;
use packed_code::PackedInstr;
use tester_types::{Sink, SinkFault, put_all};

impl Spelled for PackedInstr {
    ghost spelling = { packed.instr };

    fn put<K: Sink>(&self, sink: &mut K) -> Result<(), SinkFault> {
        put_all(sink, self.bytes())
    }

    fn size(&self) -> u64 {
        self.bytes().len() as u64
    }
}
