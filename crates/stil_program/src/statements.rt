//! The fault of tokens that are no statements.

ghost use Rattle.std.specs.Prelude.{◌≡◌, ◌≤◌, ◌⊎◌, ◌+◌, length, take};
ghost use Rattle.std.specs.List.{position_or_len};
ghost use Rattle.stil_tree.specs.Signs.{close_brace, is_sign};
ghost use Rattle.stil_tree.specs.Faults.{IsFault};
ghost use Rattle.stil_tree.specs.declared.fault.TreeFault.TheVariants as tree;
ghost use Rattle.stil_form.specs.Setting.{line_at};
ghost use Rattle.stil_program.specs.Places.{IsToldBehind, Tells};
ghost use Rattle.stil_program.specs.StatementFaults.{before_close, IsStatementFault};

use crate::told::told_behind;
use std::alloc::Global;
use stil_ast::{StilKind, StilRefusal};
use stil_form::line_at;
use stil_lex::{Token, TokenKind};
use stil_tree::TreeFault;

fn is_close(token: &Token) -> bool
    ensures { result ≡ is_sign close_brace token.now }
{
    matches!(token.kind, TokenKind::Sign(b'}'))
}

/// How many tokens stand before the first `}`, or all.
fn close_place(tokens: &[Token]) -> usize
    ensures place { result ≡ position_or_len (is_sign close_brace) tokens.now }
    ensures within { result ≤ length tokens.now }
{
    tokens.iter().take_while(|token| !is_close(token)).count()
}

/// The tokens before the first `}` behind the head that begins at an index, all where there is none.
fn before_close(tokens: &[Token], first: usize) -> &[Token]
    ensures { result.now ≡ before_close tokens.now first }
{
    if first < tokens.len() {
        let count = close_place(&tokens[first..]);
        &tokens[..first + count]
    } else {
        tokens
    }
}

/// The tokens up to the sign at an index and with it.
fn upto(tokens: &[Token], place: usize) -> &[Token]
    ensures { result.now ≡ take (place + 1) tokens.now }
{
    if place < tokens.len() {
        &tokens[..place + 1]
    } else {
        tokens
    }
}

/// The refusal that tells of a fault of this kind behind the tokens that are read, with the line of the token at an index.
fn told_at(
    alloc: Global,
    bytes: &[u8],
    tokens: &[Token],
    read: &[Token],
    kind: StilKind,
    index: usize,
) -> StilRefusal
    ensures { Tells (IsToldBehind bytes.now read.now kind (line_at tokens.now index)) result }
{
    told_behind(alloc, bytes, read, kind, line_at(tokens, index))
}

/// The refusal that tells of the fault of the tokens.
pub(crate) fn statements_refused(
    alloc: Global,
    bytes: &[u8],
    tokens: &[Token],
    fault: TreeFault,
) -> StilRefusal
    requires { (fault ≡ tree.NoMemory) ⊎ IsFault tokens.now fault }
    ensures { Tells (IsStatementFault bytes.now tokens.now) result }
{
    match fault {
        TreeFault::NoMemory => StilRefusal::NoMemory,
        TreeFault::OpenBlock(brace) => told_at(
            alloc,
            bytes,
            tokens,
            tokens,
            StilKind::OpenBlock,
            brace,
        ),
        TreeFault::OpenStatement(first) => told_at(
            alloc,
            bytes,
            tokens,
            before_close(tokens, first),
            StilKind::OpenStatement,
            first,
        ),
        TreeFault::StrayClose(place) => told_at(
            alloc,
            bytes,
            tokens,
            upto(tokens, place),
            StilKind::StrayClose,
            place,
        ),
        TreeFault::TooDeep(place) => told_at(
            alloc,
            bytes,
            tokens,
            upto(tokens, place),
            StilKind::TooDeep,
            place,
        ),
    }
}
