//! Saving executives and their chains.

ghost use Rattle.std.specs.Prelude.{◌≡◌, ◌≤◌, ◌^◌, ◌-◌, ◌++◌, ◌∷◌, [], OnErr, length, min};
ghost use Rattle.std.specs.List.{flat_map};
ghost use Rattle.std.specs.Int.{w16, w32};
ghost use Rattle.tester_types.specs.Outside.{HasRisen, Puts};
ghost use Rattle.packed_code.specs.Packed.{number};
ghost use Rattle.page_code.specs.Spelling as spell;
ghost use Rattle.packed_code.specs.Packed as packed;

use crate::write_fields::{
    Bytes, Count16, Count32, Each, Number16, Number32, Spelled, Then, followed,
};
use packed_code::{CodeChain, CodeExec, PackedInstr};
use tester_types::{Sink, SinkFault, Text};

/// The name, the scan-out signal, the length and the cells.
fn chain_parts(
    chain: &CodeChain,
) -> Then<&Text, Then<Number16, Then<Number32, Then<Count32, Each<'_, Text>>>>>
    ensures { spell.text result.first.now ++ (number w16 result.second.first.number
        ++ (number w32 result.second.second.first.number ++ (number w32 result.second.second.second.first.count
        ++ (flat_map spell.text result.second.second.second.second.items.now)))) ≡ spell.chain chain.now }
{
    followed(
        &chain.name,
        followed(
            Number16 { number: chain.out },
            followed(
                Number32 {
                    number: chain.length,
                },
                followed(
                    Count32 {
                        count: chain.cells.len(),
                    },
                    Each {
                        items: chain.cells.as_slice(),
                    },
                ),
            ),
        ),
    )
}

impl Spelled for CodeChain {
    ghost spelling = { spell.chain };

    fn put<K: Sink>(&self, sink: &mut K) -> Result<(), SinkFault> {
        chain_parts(self).put(sink)
    }

    fn size(&self) -> u64 {
        chain_parts(self).size()
    }
}

/// A length and that many bytes.
fn name_parts(name: &[u8]) -> Then<Count16, Bytes<'_>>
    ensures { number w16 result.first.count ++ result.second.bytes.now ≡ spell.text name.now }
{
    followed(Count16 { count: name.len() }, Bytes { bytes: name })
}

/// The name, the chains and the instructions.
fn exec_parts(
    exec: &CodeExec,
) -> Then<
    Then<Count16, Bytes<'_>>,
    Then<Count16, Then<Each<'_, CodeChain>, Then<Count32, Each<'_, PackedInstr>>>>,
>
    ensures { (number w16 result.first.first.count ++ result.first.second.bytes.now)
        ++ (number w16 result.second.first.count ++ (flat_map spell.chain result.second.second.first.items.now
        ++ (number w32 result.second.second.second.first.count
        ++ flat_map packed.instr result.second.second.second.second.items.now))) ≡ spell.exec exec.now }
{
    let chains = exec.chains().as_slice();
    let instrs = exec.instrs();
    followed(
        name_parts(exec.name()),
        followed(
            Count16 {
                count: chains.len(),
            },
            followed(
                Each { items: chains },
                followed(
                    Count32 {
                        count: instrs.len(),
                    },
                    Each { items: instrs },
                ),
            ),
        ),
    )
}

impl Spelled for CodeExec {
    ghost spelling = { spell.exec };

    fn put<K: Sink>(&self, sink: &mut K) -> Result<(), SinkFault> {
        exec_parts(self).put(sink)
    }

    fn size(&self) -> u64 {
        exec_parts(self).size()
    }
}
