//! Signals blocks (IEEE 1450-1999, clause 14).

ghost use Rattle.std.specs.Prelude.{◌≡◌, None, Some, MatchOption};
ghost use Rattle.stil_tree.specs.Trees.{entry_of};
ghost use Rattle.stil_form.specs.Lexeme.{lexemes};
ghost use Rattle.stil_form.specs.Reading.{Answers};
ghost use Rattle.stil_form.specs.Setting.{setting_of};
ghost use Rattle.pat_read.specs.References as references;
ghost use Rattle.block_forms.specs.Heads.{Says};
ghost use Rattle.signal_blocks.specs.Signals as signals;
ghost use Rattle.signal_blocks.specs.Signals.{signal_of};

use block_forms::{bare_block, only_keyword, skip_attributes};
use std::alloc::Global;
use stil_ast::{Direction, IndexRange, SignalDecl, SignalDeclList};
use stil_form::{
    Form, FormFault, FormKind, Part, Reader, SignKind, Source, Span, first_of, first_part, head_at,
    index_front, inner_of, line_at, name_of, read_unskipped,
};
use stil_tree::Stmt;
use tester_types::Items;

/// What the head of a signal's statement says.
#[derive(Clone, Copy, Debug)]
pub(crate) struct SignalHead<'a> {
    name: &'a [u8],
    range: Option<IndexRange>,
    direction: Direction,
    line: u32,
}

/// What a signal is for.
const DIRECTIONS: [(&[u8], Direction); 5] = [
    (b"In", Direction::In),
    (b"Out", Direction::Out),
    (b"InOut", Direction::InOut),
    (b"Supply", Direction::Supply),
    (b"Pseudo", Direction::Pseudo),
];

/// Whether two indices begin behind a `[`, with dots between them.
fn are_two(inside: Source) -> bool
    ensures { result ≡ signals.are_two (lexemes inside.entry) }
{
    match first_part(inside) {
        Some((_, rest)) => matches!(first_part(rest), Some((Part::Sign(SignKind::Dot), _))),
        None => false,
    }
}

/// Indices `[n..n]` or none, and what stands behind them.
fn span_front<'a>(rest: Source<'a>) -> Option<(Option<Span>, Source<'a>)>
    ensures { MatchOption result (signals.span_front (lexemes rest.entry) ≡ None)
        (λ found. signals.span_front (lexemes rest.entry) ≡ Some (found.0, lexemes found.1)) }
{
    match first_part(rest) {
        Some((Part::Sign(SignKind::Open), inside)) => {
            if !are_two(inside) {
                return None;
            }
            let (span, behind) = index_front(rest)?;
            Some((Some(span), behind))
        }
        _ => Some((None, rest)),
    }
}

/// The indices of a name, each at most 2^32 - 1.
fn range_of(span: Option<Span>) -> Result<Option<IndexRange>, FormKind>
    ensures { result ≡ references.range_of span }
{
    match span {
        None => Ok(None),
        Some(span) => match span.indices() {
            Some((first, last)) => Ok(Some(IndexRange { first, last })),
            None => Err(FormKind::OutOfRange),
        },
    }
}

/// What `name dir` or `name[n..n] dir` says, on a line.
fn signal_said<'a>(line: u32, head: Source<'a>) -> Result<SignalHead<'a>, FormKind>
    ensures { Says signal_of result (signals.signal_said line (lexemes head.entry)) }
{
    let Some((one, rest)) = first_part(head) else {
        return Err(FormKind::Shape);
    };
    let Some(name) = name_of(&one) else {
        return Err(FormKind::Shape);
    };
    let Some((span, behind)) = span_front(rest) else {
        return Err(FormKind::Shape);
    };
    let Some(direction) = only_keyword(&DIRECTIONS, behind) else {
        return Err(FormKind::Shape);
    };
    let range = range_of(span)?;
    Ok(SignalHead {
        name,
        range,
        direction,
        line,
    })
}

/// Statements of Signals blocks.
#[derive(Clone, Copy)]
struct SignalForm<'k, 'a> {
    reader: Reader<'k, 'a>,
}

impl Form for SignalForm<'_, '_> {
    type Data = SignalDecl;

    ghost judge = { λ form before e. signals.judge_signal (setting_of form.reader) before e };

    fn judge_one(
        &self,
        alloc: Global,
        before: &[SignalDecl],
        stmt: &Stmt,
    ) -> Result<SignalDecl, FormFault> {
        let _ = before;
        let line = line_at(self.reader.source.tokens, first_of(stmt) as usize);
        let said = signal_said(line, head_at(self.reader.source, stmt)).map_err(
            |kind| FormFault::Refused(kind, first_of(stmt)),
        )?;
        skip_attributes(alloc, &self.reader, stmt)?;
        Ok(SignalDecl {
            name: Items::from_slice(alloc, said.name)?,
            range: said.range,
            direction: said.direction,
            line: said.line,
        })
    }
}

/// The signals of a Signals block.
pub fn read_signals_block(
    alloc: Global,
    reader: &Reader,
    stmt: &Stmt,
) -> Result<SignalDeclList, FormFault>
    ensures { Answers result (signals.signals_block (setting_of reader.now) (entry_of stmt.now)) }
{
    bare_block(reader, stmt)?;
    let form = SignalForm { reader: *reader };
    let read = read_unskipped(alloc, &form, reader, inner_of(stmt))?;
    Ok(Items::from_vec(read))
}
