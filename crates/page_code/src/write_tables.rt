//! Saving signals and tables.

ghost use Rattle.std.specs.Prelude.{◌≡◌, ◌≤◌, ◌^◌, ◌-◌, ◌++◌, ◌∷◌, [], OnErr, length, min};
ghost use Rattle.std.specs.List.{flat_map};
ghost use Rattle.std.specs.Int.{w8, w16, w32, w64};
ghost use Rattle.tester_types.specs.Outside.{HasRisen, Puts};
ghost use Rattle.packed_code.specs.Packed.{number};
ghost use Rattle.page_code.specs.Spelling as spell;

use crate::write_fields::{
    Byte, Bytes, Count8, Count16, Count32, Each, Number16, Number64, Spelled, Then, followed,
};
use packed_code::CodeSignal;
use tester_types::{Event, Sink, SinkFault, Table, Text, Wave, act_byte, direction_byte};

/// A length and that many bytes.
fn text_parts(text: &Text) -> Then<Count16, Bytes<'_>>
    ensures { number w16 result.first.count ++ (result.second.bytes.now) ≡ spell.text text.now }
{
    followed(
        Count16 { count: text.len() },
        Bytes {
            bytes: text.as_slice(),
        },
    )
}

impl Spelled for Text {
    ghost spelling = { spell.text };

    fn put<K: Sink>(&self, sink: &mut K) -> Result<(), SinkFault> {
        text_parts(self).put(sink)
    }

    fn size(&self) -> u64 {
        text_parts(self).size()
    }
}

/// The direction and the name.
fn signal_parts(signal: &CodeSignal) -> Then<Byte, &Text>
    ensures { (result.first.byte ∷ []) ++ (spell.text result.second.now) ≡ spell.signal signal.now }
{
    followed(
        Byte {
            byte: direction_byte(signal.direction),
        },
        &signal.name,
    )
}

impl Spelled for CodeSignal {
    ghost spelling = { spell.signal };

    fn put<K: Sink>(&self, sink: &mut K) -> Result<(), SinkFault> {
        signal_parts(self).put(sink)
    }

    fn size(&self) -> u64 {
        signal_parts(self).size()
    }
}

/// The time and the act.
fn event_parts(event: &Event) -> Then<Number64, Byte>
    ensures { number w64 result.first.number ++ ((result.second.byte ∷ [])) ≡ spell.event event.now }
{
    followed(
        Number64 { number: event.time },
        Byte {
            byte: act_byte(event.act),
        },
    )
}

impl Spelled for Event {
    ghost spelling = { spell.event };

    fn put<K: Sink>(&self, sink: &mut K) -> Result<(), SinkFault> {
        event_parts(self).put(sink)
    }

    fn size(&self) -> u64 {
        event_parts(self).size()
    }
}

/// The signal, the letter and the events.
fn wave_parts(wave: &Wave) -> Then<Number16, Then<Byte, Then<Count8, Each<'_, Event>>>>
    ensures { number w16 result.first.number ++ ((result.second.first.byte ∷ [])
        ++ (number w8 result.second.second.first.count ++ (flat_map spell.event result.second.second.second.items.now)))
        ≡ spell.wave wave.now }
{
    followed(
        Number16 {
            number: wave.signal,
        },
        followed(
            Byte {
                byte: wave.character,
            },
            followed(
                Count8 {
                    count: wave.events.len(),
                },
                Each {
                    items: wave.events.as_slice(),
                },
            ),
        ),
    )
}

impl Spelled for Wave {
    ghost spelling = { spell.wave };

    fn put<K: Sink>(&self, sink: &mut K) -> Result<(), SinkFault> {
        wave_parts(self).put(sink)
    }

    fn size(&self) -> u64 {
        wave_parts(self).size()
    }
}

/// The name, the period and the waves.
fn table_parts(table: &Table) -> Then<&Text, Then<Number64, Then<Count32, Each<'_, Wave>>>>
    ensures { spell.text result.first.now ++ (number w64 result.second.first.number
        ++ (number w32 result.second.second.first.count ++ (flat_map spell.wave result.second.second.second.items.now)))
        ≡ spell.table table.now }
{
    followed(
        &table.name,
        followed(
            Number64 {
                number: table.period,
            },
            followed(
                Count32 {
                    count: table.waves.len(),
                },
                Each {
                    items: table.waves.as_slice(),
                },
            ),
        ),
    )
}

impl Spelled for Table {
    ghost spelling = { spell.table };

    fn put<K: Sink>(&self, sink: &mut K) -> Result<(), SinkFault> {
        table_parts(self).put(sink)
    }

    fn size(&self) -> u64 {
        table_parts(self).size()
    }
}
