//! Pattern, MacroDefs and Procedures blocks (IEEE 1450-1999, clauses 22 to 24).

ghost use Rattle.std.specs.Prelude.{◌≡◌, ◌∷◌, ◌++◌, [], List, ℕ, Result, Ok, IfOk, map};
ghost use Rattle.stil_tree.specs.Trees.{entry_of};
ghost use Rattle.stil_form.specs.Reading.{Answers, AnswersBy, and_then};
ghost use Rattle.stil_form.specs.Setting.{setting_of};
ghost use Rattle.block_forms.specs.Heads.{under};
ghost use Rattle.pattern_blocks.specs.Defs as defs;
ghost use Rattle.pattern_blocks.specs.Defs.{body_in, names_of, def_said, defs_in};

use block_forms::{Declared, named_block, only_name, titled_block, with_block};
use pat_read::{BodyPlace, read_written};
use std::alloc::Global;
use stil_ast::{BodyDef, DefBlock, PatBody, Pattern};
use stil_form::{FormFault, FormKind, Reader, first_of, head_at, inner_of, skips};
use stil_tree::Stmt;
use tester_types::Items;

/// The body that stands in a statement's block.
fn body_in(
    alloc: Global,
    reader: &Reader,
    place: BodyPlace,
    stmt: &Stmt,
) -> Result<PatBody, FormFault>
    ensures { Answers result (body_in (setting_of reader.now) place (entry_of stmt.now)) }
{
    match &stmt.body {
        Some(stmts) => read_written(alloc, reader, place, stmts),
        None => Ok(PatBody::from_vec(Vec::new(alloc))),
    }
}

/// The Pattern that a statement is.
pub fn read_pattern_block(alloc: Global, reader: &Reader, stmt: &Stmt) -> Result<Pattern, FormFault>
    ensures { Answers result (defs.pattern_block (setting_of reader.now) (entry_of stmt.now)) }
{
    let called = named_block(reader, stmt)?;
    let body = body_in(alloc, reader, BodyPlace::Pattern, stmt)?;
    let name = Items::from_slice(alloc, called)?;
    Ok(Pattern { name, body })
}

/// A macro or a procedure, whose name is declared with it.
fn read_def<'a>(
    alloc: Global,
    reader: &Reader<'_, 'a>,
    place: BodyPlace,
    title: &'a [u8],
    declared: &mut Declared<'a>,
    stmt: &Stmt,
) -> Result<BodyDef, FormFault>
    ensures read { Answers result
        (def_said (setting_of reader.now) place title.entry.now declared.old (entry_of stmt.now)) }
    ensures declared { IfOk result (λ read. declared.new ≡ declared.old ++ (title.entry.now, read.name) ∷ []) }
{
    let called = with_block(stmt, only_name(head_at(reader.source, stmt)))?;
    if declared.has(title, called) {
        return Err(FormFault::Refused(FormKind::Twice, first_of(stmt)));
    }
    let body = body_in(alloc, reader, place, stmt)?;
    let name = Items::from_slice(alloc, called)?;
    declared.add(alloc, title, called)?;
    Ok(BodyDef { name, body })
}

/// The bodies of a block, whose names are declared with them.
fn read_defs<'a>(
    alloc: Global,
    reader: &Reader<'_, 'a>,
    place: BodyPlace,
    title: &'a [u8],
    declared: &mut Declared<'a>,
    stmts: &[Stmt],
) -> Result<Vec<BodyDef>, FormFault>
    ensures read { AnswersBy (λ read. read.items) result
        (defs_in (setting_of reader.now) place title.entry.now declared.old (map entry_of stmts.now)) }
    ensures declared { IfOk result
        (λ read. declared.new ≡ declared.old ++ under title.entry.now (names_of read.items)) }
{
    let mut read = Vec::new(alloc);
    for stmt in stmts {
        if skips(reader, stmt) {
            continue;
        }
        let def = read_def(alloc, reader, place, title, declared, stmt)?;
        read.push(def)?;
    }
    Ok(read)
}

/// The MacroDefs or Procedures block that a statement is, behind the bodies declared so far, each under the title of its block; its
/// own are declared with it.
pub fn read_defs_block<'a>(
    alloc: Global,
    reader: &Reader<'_, 'a>,
    place: BodyPlace,
    declared: &mut Declared<'a>,
    stmt: &Stmt,
) -> Result<DefBlock, FormFault>
    ensures read { Answers result
        (defs.defs_block (setting_of reader.now) place declared.old (entry_of stmt.now)) }
    ensures declared { IfOk result (λ read. declared.new ≡ declared.old ++ under read.name (names_of read.bodies)) }
{
    let title = titled_block(reader, stmt)?;
    let read = read_defs(alloc, reader, place, title, declared, inner_of(stmt))?;
    let name = Items::from_slice(alloc, title)?;
    let bodies = Items::from_vec(read);
    Ok(DefBlock { name, bodies })
}
