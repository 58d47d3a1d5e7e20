//! The statements of a body with their blocks, in text order (IEEE 1450-1999, clauses 22 to 24).

ghost use Rattle.std.specs.Prelude.{◌≡◌, ◌⊎◌, false, [], map, is_some, Ok, IfOk, IfErr, MatchResult};
ghost use Rattle.stil_tree.specs.Trees.{entry_of, trees_from, trees};
ghost use Rattle.stil_form.specs.Reading.{Answers, AnswersBy};
ghost use Rattle.stil_ast.specs.Data.Written.{Written};
ghost use Rattle.stil_ast.specs.Data.Refusal.{StilRefusal};
ghost use Rattle.answers.specs.declared.short.Short.TheVariants as refusal;
ghost use Rattle.stil_form.specs.Setting.{Setting, setting, setting_of, line_at, at_statement, inner_of};
ghost use Rattle.pat_read.specs.Body.{assignment_with, outline_at, judge_assignment, assignments_of, step_of, action_of, judge_statement, body_from, body_of};
ghost use Rattle.pat_read.specs.Refusal.{IsBodyFault, BodyAnswers};

use crate::assignment::{add_assignment, assignment_of};
use crate::outline::{Outline, Plain, statement_said};
use crate::refusal::refused;
use std::alloc::Global;
use stil_ast::{
    ArgumentList, AssignmentList, PatAction, PatBody, PatStmt, RefKind, Step, StilRefusal, VecText,
    WordList,
};
use stil_form::{
    FormFault, Reader, Source, Words, first_of, has_block, head_at, inner_of, line_at, skips,
};
use stil_lex::Token;
use stil_tree::{Stmt, StmtList};

/// Where a body stands.
#[derive(Clone, Copy, Debug, PartialEq, Eq)]
pub enum BodyPlace {
    Pattern,
    Macro,
    Procedure,
}

/// The data of the assignment at hand, and the assignments of the block at hand. They are emptied and filled again for
/// each, so that they grow but once in a body.
#[derive(Drop)]
struct Drafts {
    items: VecText,
    read: AssignmentList,
}

/// The line of a statement.
fn line_of(form: &Reader, stmt: &Stmt) -> u32
    ensures { result ≡ line_at form.now.source.tokens.now (entry_of stmt.now).first }
{
    line_at(form.source.tokens, first_of(stmt) as usize)
}

/// The reference of an assignment, while its data are taken.
fn read_assignment<'k, 'a>(
    items: &mut VecText,
    form: &Reader<'k, 'a>,
    stmt: &Stmt,
) -> Result<(RefKind, &'a [u8]), FormFault>
    requires { items.old ≡ [] }
    ensures { AnswersBy
        (λ found. assignment_with (setting_of form.now) (entry_of stmt.now) found.0 found.1.now items.new) result
        (judge_assignment (setting_of form.now) [] (entry_of stmt.now)) }
{
    let line = line_of(form, stmt);
    match assignment_of(items, line, has_block(stmt), head_at(form.source, stmt)) {
        Ok(found) => Ok(found),
        Err(fault) => Err(fault.at(first_of(stmt))),
    }
}

/// Takes the assignments of a block, each by way of a list of data that is filled again.
fn take_assignments(
    read: &mut AssignmentList,
    items: &mut VecText,
    form: &Reader,
    stmts: &[Stmt],
) -> Result<(), FormFault>
    requires { read.old ≡ [] }
    ensures { AnswersBy (λ _. read.new) result (assignments_of (setting_of form.now) (map entry_of stmts.now)) }
{
    for stmt in stmts {
        if skips(form, stmt) {
            continue;
        }
        items.clear();
        let (reference, bytes) = read_assignment(items, form, stmt)?;
        add_assignment(read, reference, bytes, items, line_of(form, stmt))?;
    }
    Ok(())
}

/// The assignments of a block, with exactly the room that they need.
fn read_assignments(
    alloc: Global,
    drafts: &mut Drafts,
    form: &Reader,
    stmts: &[Stmt],
) -> Result<AssignmentList, FormFault>
    ensures { Answers result (assignments_of (setting_of form.now) (map entry_of stmts.now)) }
{
    drafts.read.clear();
    take_assignments(&mut drafts.read, &mut drafts.items, form, stmts)?;
    let read = drafts.read.copied(alloc)?;
    Ok(read)
}

/// The assignments of a block of arguments.
fn read_arguments(
    alloc: Global,
    drafts: &mut Drafts,
    form: &Reader,
    stmts: &[Stmt],
) -> Result<ArgumentList, FormFault>
    ensures { Answers result (assignments_of (setting_of form.now) (map entry_of stmts.now)) }
{
    let given = read_assignments(alloc, drafts, form, stmts)?;
    let given = ArgumentList::new(alloc, given)?;
    Ok(given)
}

/// What a statement says without its block.
fn read_outline(alloc: Global, form: &Reader, top: bool, stmt: &Stmt) -> Result<Outline, FormFault>
    ensures { Answers result
        (at_statement (entry_of stmt.now).first (outline_at (setting_of form.now) top (entry_of stmt.now))) }
{
    match statement_said(alloc, top, has_block(stmt), head_at(form.source, stmt)) {
        Ok(outline) => Ok(outline),
        Err(fault) => Err(fault.at(first_of(stmt))),
    }
}

/// A plain statement with the assignments of its block.
fn read_step(
    alloc: Global,
    drafts: &mut Drafts,
    form: &Reader,
    plain: Plain,
    stmts: &[Stmt],
) -> Result<Step, FormFault>
    ensures { Answers result (step_of plain (assignments_of (setting_of form.now) (map entry_of stmts.now))) }
{
    match plain {
        Plain::Wave(table) => Ok(Step::Wave(table)),
        Plain::Vector => {
            let given = read_assignments(alloc, drafts, form, stmts)?;
            Ok(Step::Vector(given))
        }
        Plain::Condition => {
            let given = read_assignments(alloc, drafts, form, stmts)?;
            Ok(Step::Condition(given))
        }
        Plain::Macro(name) => {
            let given = read_arguments(alloc, drafts, form, stmts)?;
            Ok(Step::Macro(name, given))
        }
        Plain::Call(name) => {
            let given = read_arguments(alloc, drafts, form, stmts)?;
            Ok(Step::Call(name, given))
        }
        Plain::Stop => Ok(Step::Stop),
        Plain::BreakPoint => Ok(Step::BreakPoint),
        Plain::IddqTestPoint => Ok(Step::IddqTestPoint),
    }
}

/// What a statement does, with its block.
#[cycle(body)]
fn read_action(
    alloc: Global,
    drafts: &mut Drafts,
    form: &Reader,
    outline: Outline,
    stmts: &[Stmt],
) -> Result<PatAction, FormFault>
    ensures { Answers result (action_of outline (assignments_of (setting_of form.now) (map entry_of stmts.now))
        (body_from (setting_of form.now) false [] (trees_from (map entry_of stmts.now)))) }
{
    match outline {
        Outline::Step(plain) => {
            let step = read_step(alloc, drafts, form, plain, stmts)?;
            Ok(PatAction::Step(step))
        }
        Outline::Loop(times) => {
            let inner = read_stmts(alloc, drafts, form, false, stmts)?;
            Ok(PatAction::Loop(times, PatBody::from_vec(inner)))
        }
        Outline::Shift => {
            let inner = read_stmts(alloc, drafts, form, false, stmts)?;
            Ok(PatAction::Shift(PatBody::from_vec(inner)))
        }
    }
}

/// A statement with its block.
#[cycle(body)]
fn read_stmt(
    alloc: Global,
    drafts: &mut Drafts,
    form: &Reader,
    top: bool,
    stmt: &Stmt,
) -> Result<PatStmt, FormFault>
    ensures { Answers result (judge_statement (setting_of form.now) top (entry_of stmt.now)
        (body_from (setting_of form.now) false [] (trees_from (inner_of (entry_of stmt.now).body)))) }
{
    let outline = read_outline(alloc, form, top, stmt)?;
    let action = read_action(alloc, drafts, form, outline, inner_of(stmt))?;
    Ok(PatStmt {
        line: line_at(form.source.tokens, first_of(stmt) as usize),
        action,
    })
}

/// Statements of a body, at a Pattern's top level or not.
#[cycle(body)]
fn read_stmts(
    alloc: Global,
    drafts: &mut Drafts,
    form: &Reader,
    top: bool,
    stmts: &[Stmt],
) -> Result<Vec<PatStmt>, FormFault>
    ensures { AnswersBy (λ read. read.items) result
        (body_from (setting_of form.now) top [] (trees_from (map entry_of stmts.now))) }
{
    let mut read = Vec::with_capacity(alloc, stmts.len())?;
    for stmt in stmts {
        if skips(form, stmt) {
            continue;
        }
        let stmt = read_stmt(alloc, drafts, form, top, stmt)?;
        read.push(stmt)?;
    }
    Ok(read)
}

/// Statements of a body, seen as trees.
fn read_trees(
    alloc: Global,
    drafts: &mut Drafts,
    form: &Reader,
    top: bool,
    body: &StmtList,
) -> Result<Vec<PatStmt>, FormFault>
    ensures { AnswersBy (λ read. read.items) result (body_from (setting_of form.now) top [] (trees body.now)) }
{
    read_stmts(alloc, drafts, form, top, body.as_slice())
}

/// The body that statements are, or the first fault of its statements, for readers of the blocks in which it stands.
pub fn read_written(
    alloc: Global,
    form: &Reader,
    place: BodyPlace,
    body: &StmtList,
) -> Result<PatBody, FormFault>
    ensures { Answers result (body_of (setting_of form.now) place (trees body.now)) }
{
    let mut drafts = Drafts {
        items: VecText::from_vec(Vec::new(alloc)),
        read: AssignmentList::new(alloc),
    };
    let top = matches!(place, BodyPlace::Pattern);
    let stmts = read_trees(alloc, &mut drafts, form, top, body)?;
    Ok(PatBody::from_vec(stmts))
}

/// The body that statements are, or what is told of their fault.
fn read_told(
    alloc: Global,
    form: &Reader,
    place: BodyPlace,
    body: &StmtList,
) -> Result<PatBody, StilRefusal>
    ensures { BodyAnswers (setting_of form.now) place (trees body.now) result }
{
    match read_written(alloc, form, place, body) {
        Ok(read) => Ok(read),
        Err(fault) => Err(refused(alloc, form.source, fault)),
    }
}

/// The same for statements of these tokens.
fn read_tokens<'a>(
    alloc: Global,
    bytes: &'a [u8],
    tokens: &'a [Token],
    body: &StmtList,
    place: BodyPlace,
    user: &WordList,
) -> Result<PatBody, StilRefusal>
    ensures { BodyAnswers (setting bytes.now tokens.now user.now) place (trees body.now) result }
{
    let words = Words::of_list(alloc, user.as_slice())?;
    let form = Reader {
        source: Source { bytes, tokens },
        words: &words,
    };
    read_told(alloc, &form, place, body)
}

/// The body that statements of these tokens are, of a pattern, a macro or a procedure.
///
/// Statements that begin with a word of `user` are skipped, at any place. Each statement is judged as a whole before
/// the statements of its block. The first one that is refused in text order gives the fault: its kind (`Shape`,
/// `LeftOut` or `OutOfRange`), its line, which is its label's where it has one, and the top-level statement in which it
/// stands. Lines count from 1.
pub fn read_body<'a>(
    alloc: Global,
    bytes: &'a [u8],
    tokens: &'a [Token],
    body: &StmtList,
    place: BodyPlace,
    user: &WordList,
) -> Result<PatBody, StilRefusal>
    ensures found { IfOk result
        (λ read. body_of (setting bytes.now tokens.now user.now) place (trees body.now) ≡ Ok read) }
    ensures only { (wanted : Written)
        → body_of (setting bytes.now tokens.now user.now) place (trees body.now) ≡ Ok wanted
        → MatchResult result (λ read. read ≡ wanted) (λ e. e ≡ refusal.NoMemory) }
    ensures fault { IfErr result (λ e. (e ≡ refusal.NoMemory)
        ⊎ IsBodyFault (setting bytes.now tokens.now user.now) place (trees body.now) e) }
    ensures refused { (fault : StilRefusal)
        → IsBodyFault (setting bytes.now tokens.now user.now) place (trees body.now) fault
        → MatchResult result (λ _. ⊥) (λ e. (e ≡ refusal.NoMemory) ⊎ (e ≡ fault)) }
{
    read_tokens(alloc, bytes, tokens, body, place, user)
}
