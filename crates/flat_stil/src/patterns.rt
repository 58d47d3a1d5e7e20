//! The patterns, bursts and executives of a flat text.

ghost use Rattle.std.specs.Prelude.{◌≡◌, ◌<◌, [], ◌∷◌, map, length};
ghost use Rattle.std.specs.List.{flat_map};
ghost use Rattle.packed_code.specs.Cycles.{exec_of};
ghost use Rattle.flat_parts.specs.Order.{table_order, row_order};
ghost use Rattle.flat_parts.specs.FlatText.{one_line, many_line, run_line, instr_lines, pattern_lines, burst_line, title, exec_parts, exec_text, exec_line, executives};
ghost use Rattle.flat_stil.specs.Working.{wrote, prints};

use crate::numbers::Numbers;
use crate::sheet::{Part, Sheet};
use packed_code::{Code, Instr, PackedInstr};

/// Writes a Run of this table and row.
fn put_run(sheet: &mut Sheet, table: u64, row: u64, times: u32)
    ensures { sheet.new ≡ prints sheet.old (run_line table row times ∷ []) }
{
    if times > 1 {
        put_many(sheet, table, row, times);
    } else {
        put_one(sheet, table, row);
    }
}

/// Writes a Run of several times.
fn put_many(sheet: &mut Sheet, table: u64, row: u64, times: u32)
    ensures { sheet.new ≡ prints sheet.old (many_line table row times ∷ []) }
{
    sheet.put_line(&[
        Part::Text(b"W \"w"),
        Part::Number(table),
        Part::Text(b"\"; Loop "),
        Part::Number(u64::from(times)),
        Part::Text(b" { Call \"r"),
        Part::Number(row),
        Part::Text(b"\"; }"),
    ]);
}

/// Writes a Run of one time.
fn put_one(sheet: &mut Sheet, table: u64, row: u64)
    ensures { sheet.new ≡ prints sheet.old (one_line table row ∷ []) }
{
    sheet.put_line(&[
        Part::Text(b"W \"w"),
        Part::Number(table),
        Part::Text(b"\"; Call \"r"),
        Part::Number(row),
        Part::Text(b"\";"),
    ]);
}

/// Writes an instruction.
fn put_instr(sheet: &mut Sheet, code: &Code, tables: &Numbers, rows: &Numbers, instr: Instr)
    requires tables { tables.now ≡ table_order code.now }
    requires rows { rows.now ≡ row_order code.now }
    ensures { sheet.new ≡ prints sheet.old (instr_lines code.now instr) }
{
    match instr {
        Instr::Run {
            table,
            row,
            times,
            ..
        } => put_run(
            sheet,
            tables.place(u32::from(table)),
            rows.place(row),
            times,
        ),
        Instr::Loop { times } => {
            sheet.put_line(&[Part::Text(b"Loop "), Part::Number(times), Part::Text(b" {")])
        }
        Instr::End => sheet.close(),
        Instr::Done => {}
    }
}

/// Writes instructions.
fn put_instrs(
    sheet: &mut Sheet,
    code: &Code,
    tables: &Numbers,
    rows: &Numbers,
    instrs: &[PackedInstr],
)
    requires tables { tables.now ≡ table_order code.now }
    requires rows { rows.now ≡ row_order code.now }
    ensures { sheet.new ≡ prints sheet.old (flat_map (instr_lines code.now) instrs.now) }
{
    for instr in instrs {
        put_instr(sheet, code, tables, rows, instr.instr());
    }
}

/// Writes the pattern of an executive.
fn put_pattern(sheet: &mut Sheet, code: &Code, tables: &Numbers, rows: &Numbers, exec: u16)
    requires exec { exec < length code.now.execs }
    requires tables { tables.now ≡ table_order code.now }
    requires rows { rows.now ≡ row_order code.now }
    ensures { sheet.new ≡ prints sheet.old (pattern_lines code.now exec) }
{
    sheet.begin(b"Pattern \"p", u64::from(exec));
    put_instrs(sheet, code, tables, rows, code.instructions(exec));
    sheet.close();
}

/// Writes the patterns of all executives.
pub(crate) fn put_patterns(sheet: &mut Sheet, code: &Code, tables: &Numbers, rows: &Numbers)
    requires tables { tables.now ≡ table_order code.now }
    requires rows { rows.now ≡ row_order code.now }
    ensures { sheet.new ≡ prints sheet.old (flat_map (pattern_lines code.now) (executives code.now)) }
{
    for exec in 0..code.execs() {
        put_pattern(sheet, code, tables, rows, exec);
    }
}

/// Writes the burst of an executive.
fn put_burst(sheet: &mut Sheet, exec: u64)
    ensures { sheet.new ≡ prints sheet.old (burst_line exec ∷ []) }
{
    sheet.put_line(&[
        Part::Text(b"PatternBurst \"b"),
        Part::Number(exec),
        Part::Text(b"\" { PatList { \"p"),
        Part::Number(exec),
        Part::Text(b"\"; } }"),
    ]);
}

/// Writes the bursts of all executives.
pub(crate) fn put_bursts(sheet: &mut Sheet, code: &Code)
    ensures { sheet.new ≡ prints sheet.old (map burst_line (executives code.now)) }
{
    for exec in 0..code.execs() {
        put_burst(sheet, u64::from(exec));
    }
}

/// Writes the name of an executive, where it has one.
fn put_title(sheet: &mut Sheet, name: &[u8])
    ensures { sheet.new ≡ wrote sheet.old (title name.now) }
{
    if !name.is_empty() {
        sheet.put_parts(&[Part::Text(b" "), Part::Name(name)]);
    }
}

/// Writes the timing and the burst of an executive.
fn put_exec_parts(sheet: &mut Sheet, exec: u64)
    ensures { sheet.new ≡ prints sheet.old (exec_parts exec ∷ []) }
{
    sheet.put_line(&[
        Part::Text(b" { Timing \"t"),
        Part::Number(exec),
        Part::Text(b"\"; PatternBurst \"b"),
        Part::Number(exec),
        Part::Text(b"\"; }"),
    ]);
}

/// Writes an executive of this name.
fn put_exec(sheet: &mut Sheet, name: &[u8], exec: u64)
    ensures { sheet.new ≡ prints sheet.old (exec_text name.now exec ∷ []) }
{
    sheet.put_parts(&[Part::Text(b"PatternExec")]);
    put_title(sheet, name);
    put_exec_parts(sheet, exec);
}

/// Writes all executives.
pub(crate) fn put_execs(sheet: &mut Sheet, code: &Code)
    ensures { sheet.new ≡ prints sheet.old (map (exec_line code.now) (executives code.now)) }
{
    for exec in 0..code.execs() {
        put_exec(sheet, code.exec_name(exec), u64::from(exec));
    }
}
