//! What is told of a fault at a place: its kind, its line, and the top-level statement that is open there.

ghost use Rattle.std.specs.Prelude.{◌≡◌, IfOk};
ghost use Rattle.pat_read.specs.Refusal.{text_at};
ghost use Rattle.stil_program.specs.Places.{IsToldBehind, Tells};

use std::alloc::{AllocError, Global};
use stil_ast::{StilFault, StilKind, StilRefusal};
use stil_lex::Token;
use stil_tree::enclosing;
use tester_types::{Items, Text};

/// The text of the token at an index, empty where there is none.
fn text_at(
    alloc: Global,
    bytes: &[u8],
    tokens: &[Token],
    index: Option<usize>,
) -> Result<Text, AllocError>
    ensures { IfOk result (λ text. text ≡ text_at bytes.now tokens.now index) }
{
    let Some(index) = index else {
        return Ok(Items::from_vec(Vec::new(alloc)));
    };
    match tokens.get(index) {
        Some(token) => Items::from_slice(alloc, token.text(bytes)),
        None => Ok(Items::from_vec(Vec::new(alloc))),
    }
}

/// The fault of this kind and line at a place behind these tokens.
fn fault_behind(
    alloc: Global,
    bytes: &[u8],
    read: &[Token],
    kind: StilKind,
    line: u32,
) -> Result<StilFault, AllocError>
    ensures { IfOk result (IsToldBehind bytes.now read.now kind line) }
{
    let (keyword, name) = enclosing(read, read.len());
    let block = text_at(alloc, bytes, read, keyword)?;
    let name = text_at(alloc, bytes, read, name)?;
    Ok(StilFault {
        kind,
        block,
        name,
        line,
    })
}

/// The refusal that tells of it.
pub(crate) fn told_behind(
    alloc: Global,
    bytes: &[u8],
    read: &[Token],
    kind: StilKind,
    line: u32,
) -> StilRefusal
    ensures { Tells (IsToldBehind bytes.now read.now kind line) result }
{
    match fault_behind(alloc, bytes, read, kind, line) {
        Ok(fault) => StilRefusal::Fault(fault),
        Err(_) => StilRefusal::NoMemory,
    }
}
