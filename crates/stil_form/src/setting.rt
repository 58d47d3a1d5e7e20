//! What statements are read by, and what a reader asks of a statement.

ghost use Rattle.std.specs.Prelude.{◌≡◌, map, is_some};
ghost use Rattle.stil_tree.specs.Trees.{entry_of};
ghost use Rattle.stil_form.specs.Lexeme.{lexemes, head_of};
ghost use Rattle.stil_form.specs.Reading.{is_skipped};
ghost use Rattle.stil_form.specs.Setting.{setting_of, tokens_at, lexemes_at, line_at, inner_of};

use crate::source::{Source, body};
use crate::words::Words;
use stil_lex::Token;
use stil_tree::Stmt;

/// What statements are read by: their text with its tokens, and the words of UserKeywords statements.
#[derive(Clone, Copy)]
pub struct Reader<'k, 'a> {
    pub source: Source<'a>,
    pub words: &'k Words<'a>,
}

/// The index of a statement's first token.
#[inline(always)]
pub fn first_of(stmt: &Stmt) -> u32
    ensures { result ≡ (entry_of stmt.now).first }
{
    stmt.first
}

/// The tokens of a statement's head.
#[inline(always)]
fn cut<'a>(source: Source<'a>, stmt: &Stmt) -> Source<'a>
    ensures bytes { result.bytes.now ≡ source.entry.bytes.now }
    ensures tokens { result.tokens.now ≡ tokens_at source.entry.tokens.now (entry_of stmt.now) }
{
    let first = source.tokens.len().min(stmt.first as usize);
    let rest = &source.tokens[first..];
    Source {
        bytes: source.bytes,
        tokens: &rest[..rest.len().min(stmt.count as usize)],
    }
}

/// The head of a statement, with its tokens.
#[inline(always)]
pub fn head_at<'a>(source: Source<'a>, stmt: &Stmt) -> Source<'a>
    ensures bytes { result.bytes.now ≡ source.entry.bytes.now }
    ensures tokens { result.tokens.now ≡ tokens_at source.entry.tokens.now (entry_of stmt.now) }
    ensures lexemes { lexemes result ≡ head_of (lexemes source.entry) (entry_of stmt.now) }
{
    cut(source, stmt)
}

/// The line of the token at an index, 0 where there is none.
#[inline(always)]
pub fn line_at(tokens: &[Token], index: usize) -> u32
    ensures { result ≡ line_at tokens.now index }
{
    match tokens.get(index) {
        Some(token) => token.line,
        None => 0,
    }
}

/// The statements of a statement's block, none where it has none.
#[inline(always)]
pub fn inner_of(stmt: &Stmt) -> &[Stmt]
    ensures { map entry_of result.now ≡ inner_of (entry_of stmt.now).body }
{
    match body(stmt) {
        Some(stmts) => stmts,
        None => &[],
    }
}

/// Whether a statement has a block.
#[inline(always)]
pub fn has_block(stmt: &Stmt) -> bool
    ensures { result ≡ is_some (entry_of stmt.now).body }
{
    body(stmt).is_some()
}

/// Whether a statement begins with one of the words.
#[inline(always)]
pub fn skips(reader: &Reader, stmt: &Stmt) -> bool
    ensures { result ≡ is_skipped reader.now.words.now (lexemes_at (setting_of reader.now) (entry_of stmt.now)) }
{
    reader.words.skips(head_at(reader.source, stmt))
}
