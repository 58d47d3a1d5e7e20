//! What a flat tree runs, as instructions.

ghost use Rattle.stil_ast.specs.Meaning.Flat.{done, cycle, repeat, save};
ghost use Rattle.flat_tree.specs.Items.{item_front};
ghost use Rattle.cycle_comp.specs.Known.{IsKnown};
ghost use Rattle.cycle_comp.specs.Passes.{Writes};

use crate::output::{put_cycle, put_loop, put_passes};
use crate::state::State;
use crate::trouble::{PlaceFault, Trouble};
use flat_tree::{FlatItem, FlatList, Origin};
use packed_code::{Entry, Instr, RowList};
use std::alloc::Global;
use stil_ast::StilKind;
use wave_tables::WaveSet;

/// Where memory comes from, the executive's tables, and the number of the first of them in the code.
#[derive(Clone, Copy)]
pub(crate) struct Source<'a> {
    pub(crate) alloc: Global,
    pub(crate) tables: &'a WaveSet,
    pub(crate) first: u16,
}

/// Writes a vector of this state, if it can run. The state knows what needn't be looked for again.
fn write_vector(
    source: &Source,
    state: &mut State,
    mark: u32,
    place: Origin,
    code: &mut Vec<Instr>,
    rows: &mut RowList,
) -> Result<(), Trouble>
    requires known { IsKnown source.now.tables.now rows.old state.old }
    ensures { Writes source.now.tables.now source.now.first (cycle mark place done) state.old.told state.old state.new
        code.old.items code.new.items rows.old rows.new result }
{
    let Some(table) = state.table() else {
        return Err(Trouble::Fault(PlaceFault {
            place,
            kind: StilKind::NoTable,
        }));
    };
    if !state.has_waves(source.tables, table) {
        return Err(Trouble::Fault(PlaceFault {
            place,
            kind: StilKind::NoWave,
        }));
    }
    let row = state.number(rows)?;
    let code_table = source.first.saturating_add(table);
    put_cycle(
        code,
        Entry {
            table: code_table,
            row,
            mark,
        },
    )?;
    state.know(table, row);
    Ok(())
}

/// Writes what a flat tree runs from this state on. `base` is the state with which the innermost save round it began.
#[cycle(writing)]
pub(crate) fn write_list(
    source: &Source,
    list: &FlatList,
    base: &State,
    state: &mut State,
    code: &mut Vec<Instr>,
    rows: &mut RowList,
) -> Result<(), Trouble>
    requires known { IsKnown source.now.tables.now rows.old state.old }
    ensures { Writes source.now.tables.now source.now.first list.now base.now.told state.old state.new
        code.old.items code.new.items rows.old rows.new result }
{
    for item in list.steps() {
        match write_item(source, item, base, state, code, rows) {
            Ok(()) => {}
            Err(trouble) => return Err(trouble),
        }
    }
    Ok(())
}

/// The same of an item.
#[cycle(writing)]
fn write_item(
    source: &Source,
    item: FlatItem<'_>,
    base: &State,
    state: &mut State,
    code: &mut Vec<Instr>,
    rows: &mut RowList,
) -> Result<(), Trouble>
    requires known { IsKnown source.now.tables.now rows.old state.old }
    ensures { Writes source.now.tables.now source.now.first (item_front item.entry done) base.now.told
        state.old state.new code.old.items code.new.items rows.old rows.new result }
{
    match item {
        FlatItem::Table(table) => {
            state.set_table(table);
            Ok(())
        }
        FlatItem::Character(signal, character) => {
            state.set(signal, Some(character));
            Ok(())
        }
        FlatItem::Back(signal) => {
            state.set(signal, base.character(signal));
            Ok(())
        }
        FlatItem::Cycle(mark, place) => write_vector(source, state, mark, place, code, rows),
        FlatItem::Repeat(count, body) => write_loop(source, count, body, base, state, code, rows),
        FlatItem::Save(putting, body) => write_save(source, putting, body, state, code, rows),
    }
}

/// Writes a loop. Where its first pass leaves the state as it was, all passes are alike. Else all from the second one
/// on are, and where that one is written as the first one is, so are all.
#[cycle(writing)]
fn write_loop(
    source: &Source,
    count: u64,
    body: &FlatList,
    base: &State,
    state: &mut State,
    code: &mut Vec<Instr>,
    rows: &mut RowList,
) -> Result<(), Trouble>
    requires known { IsKnown source.now.tables.now rows.old state.old }
    ensures { Writes source.now.tables.now source.now.first (repeat count body.now done) base.now.told
        state.old state.new code.old.items code.new.items rows.old rows.new result }
{
    if count == 0 {
        return Ok(());
    }
    if count == 1 {
        return write_list(source, body, base, state, code, rows);
    }
    let moves = state.moves();
    let mut first = Vec::new(source.alloc);
    match write_list(source, body, base, state, &mut first, rows) {
        Ok(()) => {}
        Err(trouble) => return Err(trouble),
    }
    if first.is_empty() {
        return Ok(());
    }
    if state.has_stayed(moves) {
        put_loop(code, count, first)?;
        return Ok(());
    }
    let mut second = Vec::new(source.alloc);
    match write_list(source, body, base, state, &mut second, rows) {
        Ok(()) => {}
        Err(trouble) => return Err(trouble),
    }
    put_passes(code, count, first, second)?;
    Ok(())
}

/// Writes the body of a save, behind which the state is put back or not.
#[cycle(writing)]
fn write_save(
    source: &Source,
    putting: bool,
    body: &FlatList,
    state: &mut State,
    code: &mut Vec<Instr>,
    rows: &mut RowList,
) -> Result<(), Trouble>
    requires known { IsKnown source.now.tables.now rows.old state.old }
    ensures { Writes source.now.tables.now source.now.first (save putting body.now done) state.old.told
        state.old state.new code.old.items code.new.items rows.old rows.new result }
{
    let held = state.copy()?;
    match write_list(source, body, &held, state, code, rows) {
        Ok(()) => {}
        Err(trouble) => return Err(trouble),
    }
    if putting {
        *state = held;
    }
    Ok(())
}
