//! PatternExec blocks (IEEE 1450-1999, clause 16).

ghost use Rattle.std.specs.Prelude.{◌≡◌, [], ◌∷◌, ◌++◌, Ok, is_some, map};
ghost use Rattle.answers.specs.Reading.{stepping};
ghost use Rattle.stil_tree.specs.Trees.{entry_of};
ghost use Rattle.stil_form.specs.Reading.{Answers, AnswersBy};
ghost use Rattle.stil_form.specs.Setting.{setting_of, lexemes_at, at_statement, unskipped};
ghost use Rattle.stil_form.specs.Lexeme.{lexemes};
ghost use Rattle.block_forms.specs.Heads.{Says};
ghost use Rattle.pattern_blocks.specs.Executives as executives;
ghost use Rattle.pattern_blocks.specs.Executives.{exec_said};
ghost use Rattle.pattern_blocks.specs.Working.{first_named, with_named, exec_step, no_parts, executive_of};

use block_forms::{keyword_in, name_or_empty, named_on, only_name, titled_block, with_one};
use std::alloc::Global;
use stil_ast::{ExecDecl, Named, NamedList};
use stil_form::{
    FormFault, FormKind, Reader, Source, StepForm, first_of, first_part, has_block, head_at,
    inner_of, line_at, read_unskipped_steps,
};
use stil_tree::Stmt;
use tester_types::Items;

/// The keywords of a PatternExec.
#[derive(Clone, Copy, Debug, PartialEq, Eq)]
pub(crate) enum ExecWord {
    Category,
    Selector,
    Timing,
    Burst,
}

/// What the statements of a PatternExec name.
#[derive(Drop)]
pub(crate) struct ExecParts {
    categories: NamedList,
    selector: Option<Named>,
    timing: Option<Named>,
    burst: Option<Named>,
}

/// The keywords of a PatternExec.
const EXEC_WORDS: [(&[u8], ExecWord); 4] = [
    (b"Category", ExecWord::Category),
    (b"Selector", ExecWord::Selector),
    (b"Timing", ExecWord::Timing),
    (b"PatternBurst", ExecWord::Burst),
];

/// What a statement with this head says.
fn exec_said<'a>(has_block: bool, head: Source<'a>) -> Result<(ExecWord, &'a [u8]), FormKind>
    ensures { Says (λ said. (said.0, said.1.now)) result (exec_said has_block (lexemes head.entry)) }
{
    let Some((one, rest)) = first_part(head) else {
        return Err(FormKind::LeftOut);
    };
    let Some(word) = keyword_in(&EXEC_WORDS, &one) else {
        return Err(FormKind::LeftOut);
    };
    if has_block {
        return Err(FormKind::Shape);
    }
    let called = match word {
        ExecWord::Timing => name_or_empty(rest),
        ExecWord::Category | ExecWord::Selector | ExecWord::Burst => only_name(rest),
    };
    match called {
        Ok(called) => Ok((word, called)),
        Err(kind) => Err(kind),
    }
}

/// What a statement says, as a fault of the statement where it says nothing.
fn read_said<'a>(reader: &Reader<'_, 'a>, stmt: &Stmt) -> Result<(ExecWord, &'a [u8]), FormFault>
    ensures { AnswersBy (λ said. (said.0, said.1.now)) result
        (at_statement (entry_of stmt.now).first
        (exec_said (is_some (entry_of stmt.now).body) (lexemes_at (setting_of reader.now) (entry_of stmt.now)))) }
{
    match exec_said(has_block(stmt), head_at(reader.source, stmt)) {
        Ok(said) => Ok(said),
        Err(kind) => Err(FormFault::Refused(kind, first_of(stmt))),
    }
}

/// A name for what has none yet, by a statement with this first token.
fn first_named(before: Option<Named>, named: Named, first: u32) -> Result<Option<Named>, FormFault>
    ensures { Answers result (at_statement first (first_named before named)) }
{
    match before {
        None => Ok(Some(named)),
        Some(_) => Err(FormFault::Refused(FormKind::Twice, first)),
    }
}

/// One more name among those of an executive.
fn with_named(
    before: ExecParts,
    word: ExecWord,
    named: Named,
    first: u32,
) -> Result<ExecParts, FormFault>
    ensures { Answers result (at_statement first (with_named before word named)) }
{
    let mut parts = before;
    match word {
        ExecWord::Category => {
            parts.categories = with_one(parts.categories, named)?;
        }
        ExecWord::Selector => {
            parts.selector = first_named(parts.selector, named, first)?;
        }
        ExecWord::Timing => {
            parts.timing = first_named(parts.timing, named, first)?;
        }
        ExecWord::Burst => {
            parts.burst = first_named(parts.burst, named, first)?;
        }
    }
    Ok(parts)
}

/// Statements of a PatternExec.
#[derive(Clone, Copy)]
struct ExecForm<'k, 'a> {
    reader: Reader<'k, 'a>,
}

impl StepForm for ExecForm<'_, '_> {
    type State = ExecParts;

    ghost step = { λ form before e. exec_step (setting_of form.reader) before e };

    fn take(&self, alloc: Global, before: ExecParts, stmt: &Stmt) -> Result<ExecParts, FormFault> {
        let (word, called) = read_said(&self.reader, stmt)?;
        let named = named_on(alloc, &self.reader, stmt, called)?;
        with_named(before, word, named, first_of(stmt))
    }
}

/// What the statements of an executive name.
fn read_parts(alloc: Global, reader: &Reader, stmts: &[Stmt]) -> Result<ExecParts, FormFault>
    ensures { Answers result (stepping (exec_step (setting_of reader.now)) no_parts
        (unskipped (setting_of reader.now) (map entry_of stmts.now))) }
{
    let form = ExecForm { reader: *reader };
    let start = ExecParts {
        categories: Items::from_vec(Vec::new(alloc)),
        selector: None,
        timing: None,
        burst: None,
    };
    read_unskipped_steps(alloc, &form, reader, start, stmts)
}

/// The PatternExec of this title that a statement is.
fn read_exec_in(
    alloc: Global,
    reader: &Reader,
    stmt: &Stmt,
    title: &[u8],
) -> Result<ExecDecl, FormFault>
    ensures { Answers result (executive_of (setting_of reader.now) (entry_of stmt.now) title.now) }
{
    let parts = read_parts(alloc, reader, inner_of(stmt))?;
    let ExecParts {
        categories,
        selector,
        timing,
        burst,
    } = parts;
    let Some(burst) = burst else {
        return Err(FormFault::Refused(FormKind::Shape, first_of(stmt)));
    };
    Ok(ExecDecl {
        name: Items::from_slice(alloc, title)?,
        categories,
        selector,
        timing,
        burst,
        line: line_at(reader.source.tokens, first_of(stmt) as usize),
    })
}

/// The PatternExec that a statement is.
pub fn read_exec_block(alloc: Global, reader: &Reader, stmt: &Stmt) -> Result<ExecDecl, FormFault>
    ensures { Answers result (executives.exec_block (setting_of reader.now) (entry_of stmt.now)) }
{
    let title = titled_block(reader, stmt)?;
    read_exec_in(alloc, reader, stmt, title)
}
