//! Timing blocks and their waveform tables (IEEE 1450-1999, clause 18).

ghost use Rattle.std.specs.Prelude.{◌≡◌, [], ◌∷◌, ◌++◌, Ok, IfOk, OnOk, map};
ghost use Rattle.stil_tree.specs.Trees.{entry_of};
ghost use Rattle.stil_form.specs.Reading.{Answers, AnswersBy};
ghost use Rattle.stil_form.specs.Setting.{setting_of};
ghost use Rattle.block_forms.specs.Heads.{under};
ghost use Rattle.timing_blocks.specs.Timings as timings;
ghost use Rattle.timing_blocks.specs.Working as working;

use crate::waveforms::read_signals;
use block_forms::{
    Declared, bare_block, first_keyword, is_first, named_block, named_on, only_name, only_text,
    quoted_at, rest_at, titled_block, with_one, without_block,
};
use std::alloc::{AllocError, Global};
use stil_ast::{Named, NamedList, SignalWaves, SignalWavesList, TableDecl, TimingBlock};
use stil_form::{
    FormFault, FormKind, Reader, StepForm, first_of, head_at, inner_of, line_at,
    read_unskipped_steps, skips,
};
use stil_tree::Stmt;
use tester_types::Items;
use text_bytes::MOST_TABLES;

/// What begins a statement of a waveform table.
#[derive(Clone, Copy, Debug, PartialEq, Eq)]
enum TableWord {
    Period,
    Inherit,
    Waveforms,
}

/// The keywords in a waveform table.
const TABLE_WORDS: [(&[u8], TableWord); 3] = [
    (b"Period", TableWord::Period),
    (b"InheritWaveformTable", TableWord::Inherit),
    (b"Waveforms", TableWord::Waveforms),
];

/// Puts more waveforms behind others.
fn append(waveforms: &mut Vec<SignalWaves>, more: Vec<SignalWaves>) -> Result<(), AllocError>
    ensures { OnOk result (waveforms.new.items ≡ waveforms.old.items ++ more.items) }
{
    waveforms.extend(more)
}

/// More waveforms behind those of a table.
fn with_more(list: SignalWavesList, more: Vec<SignalWaves>) -> Result<SignalWavesList, FormFault>
    ensures { Answers result (Ok (list ++ more.items)) }
{
    let mut list = list.into_vec();
    append(&mut list, more)?;
    Ok(Items::from_vec(list))
}

/// Statements of a waveform table.
#[derive(Clone, Copy)]
struct TableForm<'k, 'a> {
    reader: Reader<'k, 'a>,
}

impl StepForm for TableForm<'_, '_> {
    type State = TableDecl;

    ghost step = { λ form. working.table_step (setting_of form.reader) };

    fn take(&self, alloc: Global, before: TableDecl, stmt: &Stmt) -> Result<TableDecl, FormFault> {
        let reader = &self.reader;
        let mut table = before;
        match first_keyword(&TABLE_WORDS, head_at(reader.source, stmt)) {
            Some(TableWord::Period) => {
                let text = without_block(stmt, only_text(rest_at(reader, stmt)))?;
                if table.period.is_some() {
                    return Err(FormFault::Refused(FormKind::Twice, first_of(stmt)));
                }
                table.period = Some(quoted_at(alloc, reader, first_of(stmt) as usize + 1, text)?);
            }
            Some(TableWord::Inherit) => {
                let called = without_block(stmt, only_name(rest_at(reader, stmt)))?;
                let inherited = named_on(alloc, reader, stmt, called)?;
                table.inherits = with_one(table.inherits, inherited)?;
            }
            Some(TableWord::Waveforms) => {
                bare_block(reader, stmt)?;
                let more = read_signals(alloc, reader, inner_of(stmt))?;
                table.waveforms = with_more(table.waveforms, more)?;
            }
            None => return Err(FormFault::Refused(FormKind::LeftOut, first_of(stmt))),
        }
        Ok(table)
    }
}

/// The table of this name, on this line, that statements say.
fn read_table(
    alloc: Global,
    reader: &Reader,
    called: &[u8],
    line: u32,
    stmts: &[Stmt],
) -> Result<TableDecl, FormFault>
    ensures { Answers result (timings.table_of (setting_of reader.now) called.now line (map entry_of stmts.now)) }
{
    let start = TableDecl {
        name: Items::from_slice(alloc, called)?,
        period: None,
        inherits: Items::from_vec(Vec::new(alloc)),
        waveforms: Items::from_vec(Vec::new(alloc)),
        line,
    };
    let form = TableForm { reader: *reader };
    read_unskipped_steps(alloc, &form, reader, start, stmts)
}

/// One more table of a Timing of this title, whose name is declared with it.
fn read_one<'a>(
    alloc: Global,
    reader: &Reader<'_, 'a>,
    declared: &mut Declared<'a>,
    title: &'a [u8],
    stmt: &Stmt,
) -> Result<TableDecl, FormFault>
    ensures table { Answers result
        (timings.table_said (setting_of reader.now) declared.old title.now (entry_of stmt.now)) }
    ensures names { IfOk result (λ table. declared.new ≡ declared.old ++ (title.now, table.name) ∷ []) }
{
    if !is_first(b"WaveformTable", head_at(reader.source, stmt)) {
        return Err(FormFault::Refused(FormKind::LeftOut, first_of(stmt)));
    }
    let called = named_block(reader, stmt)?;
    if declared.count(title) >= MOST_TABLES {
        return Err(FormFault::Refused(FormKind::OutOfRange, first_of(stmt)));
    }
    if declared.has(title, called) {
        return Err(FormFault::Refused(FormKind::Twice, first_of(stmt)));
    }
    let line = line_at(reader.source.tokens, first_of(stmt) as usize);
    let table = read_table(alloc, reader, called, line, inner_of(stmt))?;
    declared.add(alloc, title, called)?;
    Ok(table)
}

/// The tables of a Timing of this title, whose names are declared with them.
fn read_tables<'a>(
    alloc: Global,
    reader: &Reader<'_, 'a>,
    declared: &mut Declared<'a>,
    title: &'a [u8],
    stmts: &[Stmt],
) -> Result<Vec<TableDecl>, FormFault>
    ensures tables { AnswersBy (λ read. read.items) result
        (timings.tables_of (setting_of reader.now) declared.old title.now (map entry_of stmts.now)) }
    ensures names { IfOk result
        (λ read. declared.new ≡ declared.old ++ under title.now (timings.table_names read.items)) }
{
    let mut tables = Vec::new(alloc);
    for stmt in stmts {
        if skips(reader, stmt) {
            continue;
        }
        let table = read_one(alloc, reader, declared, title, stmt)?;
        tables.push(table)?;
    }
    Ok(tables)
}

/// A Timing block behind the tables declared so far, each under the title of its Timing; its own are declared with it.
pub fn read_timing_block<'a>(
    alloc: Global,
    reader: &Reader<'_, 'a>,
    declared: &mut Declared<'a>,
    stmt: &Stmt,
) -> Result<TimingBlock, FormFault>
    ensures block { Answers result
        (timings.timing_block (setting_of reader.now) declared.old (entry_of stmt.now)) }
    ensures names { IfOk result
        (λ read. declared.new ≡ declared.old ++ under read.name (timings.table_names read.tables)) }
{
    let title = titled_block(reader, stmt)?;
    let name = Items::from_slice(alloc, title)?;
    let tables = read_tables(alloc, reader, declared, title, inner_of(stmt))?;
    let tables = Items::from_vec(tables);
    Ok(TimingBlock { name, tables })
}
