//! Texts with their tokens, the heads of statements, and their blocks.

ghost use Rattle.std.specs.Prelude.{◌≡◌, [], ◌∷◌, map, MatchOption, None, Some};
ghost use Rattle.stil_tree.specs.Trees.{entry_of};
ghost use Rattle.stil_form.specs.Lexeme.{lexeme_of, lexemes, head_of, body_of};

use crate::part::{Part, part_of};
use stil_lex::Token;
use stil_tree::Stmt;

/// A text with its tokens, or with some of them.
#[derive(Clone, Copy)]
pub struct Source<'a> {
    pub bytes: &'a [u8],
    pub tokens: &'a [Token],
}

/// The first part, and what stands behind it.
#[inline(always)]
pub fn first_part<'a>(source: Source<'a>) -> Option<(Part<'a>, Source<'a>)>
    ensures { MatchOption result (lexemes source.entry ≡ [])
        (λ found. lexemes source.entry ≡ lexeme_of found.0 ∷ lexemes found.1) }
{
    let bytes = source.bytes;
    match source.tokens {
        [first, tokens @ ..] => Some((part_of(bytes, first), Source { bytes, tokens })),
        [] => None,
    }
}

/// The head of a statement.
#[inline(always)]
pub fn head<'a>(source: Source<'a>, stmt: &Stmt) -> Source<'a>
    ensures { lexemes result ≡ head_of (lexemes source.entry) (entry_of stmt.now) }
{
    let first = source.tokens.len().min(stmt.first as usize);
    let rest = &source.tokens[first..];
    Source {
        bytes: source.bytes,
        tokens: &rest[..rest.len().min(stmt.count as usize)],
    }
}

/// The statements of a statement's block.
#[inline(always)]
pub fn body(stmt: &Stmt) -> Option<&[Stmt]>
    ensures { MatchOption result (body_of (entry_of stmt.now) ≡ None)
        (λ stmts. body_of (entry_of stmt.now) ≡ Some (map entry_of stmts.now)) }
{
    match &stmt.body {
        Some(list) => Some(list.as_slice()),
        None => None,
    }
}
