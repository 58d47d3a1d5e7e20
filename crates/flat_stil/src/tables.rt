//! The tables of a flat text.

ghost use Rattle.std.specs.Prelude.{◌≡◌, ◌<◌, [], ◌∷◌, ◌++◌, map, length, codes, OnOk};
ghost use Rattle.std.specs.List.{flat_map, range_with_len};
ghost use Rattle.packed_code.specs.Cycles.{exec_of};
ghost use Rattle.flat_parts.specs.Order.{tables_in, firsts, table_order};
ghost use Rattle.flat_parts.specs.FlatText.{act_letter, event_item, wave_front, wave_line, waveform_lines, period_line, table_lines};
ghost use Rattle.flat_parts.specs.FlatText.{numbered_table, table_among, own_table, timing_lines, executives};
ghost use Rattle.flat_stil.specs.Working.{wrote, prints};

use crate::names::name_at;
use crate::numbers::Numbers;
use crate::order::own_tables;
use crate::sheet::{Part, Sheet};
use packed_code::Code;
use std::alloc::Global;
use tester_types::{Act, Event, NoMemory, Table, Wave, look_letter, push_letter};

/// The letter of an act.
fn act_letter(act: Act) -> &'static [u8]
    ensures { result.now ≡ act_letter act }
{
    match act {
        Act::Push(push) => push_letter(push),
        Act::Look(look) => look_letter(look),
    }
}

/// Writes an event.
fn put_event(sheet: &mut Sheet, event: Event)
    ensures { sheet.new ≡ wrote sheet.old (event_item event) }
{
    sheet.put_parts(&[
        Part::Text(b"'"),
        Part::Number(event.time),
        Part::Text(b"fs' "),
        Part::Text(act_letter(event.act)),
        Part::Text(b"; "),
    ]);
}

/// Writes events.
fn put_events(sheet: &mut Sheet, events: &[Event])
    ensures { sheet.new ≡ wrote sheet.old (flat_map event_item events.now) }
{
    for event in events {
        put_event(sheet, *event);
    }
}

/// Writes the signal and the character of a wave, up to its events.
fn put_front(sheet: &mut Sheet, name: &[u8], character: u8)
    ensures { sheet.new ≡ wrote sheet.old (wave_front name.now character ++ codes "{ ") }
{
    sheet.put_parts(&[
        Part::Name(name),
        Part::Text(b" { "),
        Part::Character(character),
        Part::Text(b" { "),
    ]);
}

/// Writes the line of a wave.
fn put_wave(sheet: &mut Sheet, code: &Code, wave: &Wave)
    ensures { sheet.new ≡ prints sheet.old (wave_line code.now wave.now ∷ []) }
{
    put_front(sheet, name_at(code, wave.signal), wave.character);
    put_events(sheet, wave.events.as_slice());
    sheet.put_line(&[Part::Text(b"} }")]);
}

/// Writes the lines of waves.
fn put_waves(sheet: &mut Sheet, code: &Code, waves: &[Wave])
    ensures { sheet.new ≡ prints sheet.old (map (wave_line code.now) waves.now) }
{
    for wave in waves {
        put_wave(sheet, code, wave);
    }
}

/// Writes the waves of a table.
fn put_waveforms(sheet: &mut Sheet, code: &Code, table: &Table)
    ensures { sheet.new ≡ prints sheet.old (waveform_lines code.now table.now) }
{
    sheet.put_line(&[Part::Text(b"Waveforms {")]);
    put_waves(sheet, code, table.waves.as_slice());
    sheet.close();
}

/// Writes the period of a table.
fn put_period(sheet: &mut Sheet, period: u64)
    ensures { sheet.new ≡ prints sheet.old (period_line period ∷ []) }
{
    sheet.put_line(&[
        Part::Text(b"Period '"),
        Part::Number(period),
        Part::Text(b"fs';"),
    ]);
}

/// Writes a table of this number.
fn put_table(sheet: &mut Sheet, code: &Code, number: u64, table: &Table)
    ensures { sheet.new ≡ prints sheet.old (table_lines code.now number table.now) }
{
    sheet.begin(b"WaveformTable \"w", number);
    put_period(sheet, table.period);
    put_waveforms(sheet, code, table);
    sheet.close();
}

/// Writes a table of the code under a new number.
fn put_numbered(sheet: &mut Sheet, code: &Code, number: u64, table: u32)
    ensures { sheet.new ≡ prints sheet.old (numbered_table code.now number table) }
{
    if table < u32::from(code.tables()) {
        put_table(sheet, code, number, code.table(table as u16));
    }
}

/// Writes a table of the code under a new number, where it is one of an executive's own.
fn put_if_own(sheet: &mut Sheet, code: &Code, own: &Numbers, number: u64, table: u32)
    ensures { sheet.new ≡ prints sheet.old (table_among code.now own.now number table) }
{
    if own.has(table) {
        put_numbered(sheet, code, number, table);
    }
}

/// Writes the tables of an executive, in their new order.
fn put_own(sheet: &mut Sheet, code: &Code, exec: u16, order: &[u32], own: &Numbers)
    requires order { order.now ≡ table_order code.now }
    requires own { own.now ≡ firsts (tables_in (exec_of code.now exec)) }
    ensures { sheet.new ≡ prints sheet.old
        (flat_map (own_table code.now exec) (range_with_len 0 (length (table_order code.now)))) }
{
    for number in 0..order.len() {
        put_if_own(sheet, code, own, number as u64, order[number]);
    }
}

/// Writes the tables of an executive as its timing.
fn put_timing(
    alloc: Global,
    sheet: &mut Sheet,
    code: &Code,
    exec: u16,
    order: &[u32],
) -> Result<(), NoMemory>
    requires exec { exec < length code.now.execs }
    requires order { order.now ≡ table_order code.now }
    ensures { OnOk result (sheet.new ≡ prints sheet.old (timing_lines code.now exec)) }
{
    let own = own_tables(alloc, code, exec)?;
    sheet.begin(b"Timing \"t", u64::from(exec));
    put_own(sheet, code, exec, order, &own);
    sheet.close();
    Ok(())
}

/// Writes the timings of all executives.
pub(crate) fn put_timings(
    alloc: Global,
    sheet: &mut Sheet,
    code: &Code,
    order: &[u32],
) -> Result<(), NoMemory>
    requires { order.now ≡ table_order code.now }
    ensures { OnOk result (sheet.new ≡ prints sheet.old (flat_map (timing_lines code.now) (executives code.now))) }
{
    for exec in 0..code.execs() {
        put_timing(alloc, sheet, code, exec, order)?;
    }
    Ok(())
}
