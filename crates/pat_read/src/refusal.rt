//! What is told of a fault: its kind, its line, and the top-level statement in which it stands.

ghost use Rattle.std.specs.Prelude.{◌≡◌, ◌+◌, IfOk, slice_get};
ghost use Rattle.stil_tree.specs.Blocks.{may_name, name_if};
ghost use Rattle.pat_read.specs.Refusal.{stil_kind, text_at, name_behind, IsTold, Tells};

use std::alloc::{AllocError, Global};
use stil_ast::{StilFault, StilKind, StilRefusal};
use stil_form::{FormFault, FormKind, Source, line_at};
use stil_lex::{Token, TokenKind};
use stil_tree::enclosing;
use tester_types::{Items, Text};

fn stil_kind(kind: FormKind) -> StilKind
    ensures { result ≡ stil_kind kind }
{
    match kind {
        FormKind::NoHeader => StilKind::NoHeader,
        FormKind::Shape => StilKind::Shape,
        FormKind::LeftOut => StilKind::LeftOut,
        FormKind::OutOfRange => StilKind::OutOfRange,
        FormKind::Twice => StilKind::Twice,
        FormKind::NoExec => StilKind::NoExec,
    }
}

/// The text of the token at an index, empty where there is none.
fn text_at(alloc: Global, source: Source, index: Option<usize>) -> Result<Text, AllocError>
    ensures { IfOk result (λ text. text ≡ text_at source.entry.bytes.now source.entry.tokens.now index) }
{
    let Some(index) = index else {
        return Ok(Items::from_vec(Vec::new(alloc)));
    };
    match source.tokens.get(index) {
        Some(token) => Items::from_slice(alloc, token.text(source.bytes)),
        None => Ok(Items::from_vec(Vec::new(alloc))),
    }
}

fn may_name(kind: TokenKind) -> bool
    ensures { result ≡ may_name kind }
{
    matches!(kind, TokenKind::Word | TokenKind::Name)
}

/// The index, where a token stands there that may be a name.
fn name_at(tokens: &[Token], index: usize) -> Option<usize>
    ensures { result ≡ name_if (slice_get tokens.now index) index }
{
    if index < tokens.len() && may_name(tokens[index].kind) {
        Some(index)
    } else {
        None
    }
}

/// The name of the top-level statement with this keyword.
fn name_behind(tokens: &[Token], keyword: Option<usize>) -> Option<usize>
    ensures { result ≡ name_behind tokens.now keyword }
{
    match keyword {
        Some(index) if index < tokens.len() => name_at(tokens, index + 1),
        _ => None,
    }
}

/// The fault of the statement with this first token.
fn told(alloc: Global, source: Source, kind: FormKind, first: u32) -> Result<StilFault, AllocError>
    ensures { IfOk result (IsTold source.entry.bytes.now source.entry.tokens.now kind first) }
{
    let upto = source.tokens.len().min(first as usize + 1);
    let (keyword, _) = enclosing(source.tokens, upto);
    let block = text_at(alloc, source, keyword)?;
    let name = text_at(alloc, source, name_behind(source.tokens, keyword))?;
    Ok(StilFault {
        kind: stil_kind(kind),
        block,
        name,
        line: line_at(source.tokens, first as usize),
    })
}

/// The refusal that tells of a fault.
pub fn refused(alloc: Global, source: Source, fault: FormFault) -> StilRefusal
    ensures { Tells source.entry.bytes.now source.entry.tokens.now fault result }
{
    let FormFault::Refused(kind, first) = fault else {
        return StilRefusal::NoMemory;
    };
    match told(alloc, source, kind, first) {
        Ok(fault) => StilRefusal::Fault(fault),
        Err(_) => StilRefusal::NoMemory,
    }
}
