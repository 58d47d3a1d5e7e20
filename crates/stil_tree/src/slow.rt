//! Plain slow readers, whose contracts are the definitions. The reader of statements looks for the end of each block, and then
//! reads the block; it gives the statements, and none exactly where the tokens are none. The reader of the open block looks at each
//! token anew.

ghost use Rattle.std.specs.Prelude.{◌≡◌, ◌+◌, ◌≤◌, ◌<◌, true, length, take, IfOk, IfSome, IfNone, OnOk};
ghost use Rattle.std.specs.List.{position_or_len};
ghost use Rattle.text_bytes.specs.Limits.{most_bytes};
ghost use Rattle.stil_tree.specs.Signs.{is_delimiter, is_sign};
ghost use Rattle.stil_tree.specs.Trees.{Trees, trees};
ghost use Rattle.stil_tree.specs.Blocks.{open_braces, EndsStatement, BeginsAt, IsBlock};
ghost use Rattle.stil_tree.specs.Step.{join};
ghost use Rattle.stil_tree.specs.Grammar.{ParsesAt, Parses};
ghost use Rattle.stil_tree.specs.Slow.{IsFirst, trees_of, before, plain_before, block_end};

use crate::block::{keyword_at, name_at};
use crate::builder::is_sign;
use crate::stmt::{Stmt, StmtList};
use std::alloc::{AllocError, Global};
use stil_lex::Token;

pub(crate) fn is_delimiter(token: &Token) -> bool
    ensures { result ≡ is_delimiter token.now }
{
    is_sign(token, b';') || is_sign(token, b'{') || is_sign(token, b'}')
}

/// How many tokens stand before the first delimiter.
fn head_len(tokens: &[Token]) -> usize
    ensures len { result ≡ position_or_len is_delimiter tokens.now }
    ensures within { result ≤ length tokens.now }
{
    tokens.iter().take_while(|t| !is_delimiter(t)).count()
}

/// Where the block ends of which these tokens are the rest, or the tokens' end.
fn block_len(tokens: &[Token]) -> usize
    requires { length tokens.now ≤ most_bytes }
    ensures end { result ≡ block_end 0 tokens.now }
    ensures within { result ≤ length tokens.now }
{
    let mut open = 0usize;
    for (at, token) in tokens.iter().enumerate() {
        if is_sign(token, b'{') {
            open += 1;
        } else if is_sign(token, b'}') {
            if open == 0 {
                return at;
            }
            open -= 1;
        }
    }
    tokens.len()
}

/// What stands at the front of tokens: a statement, or none where a `;` is skipped, and how many tokens it takes.
struct First {
    stmt: Option<Stmt>,
    len: usize,
}

/// A statement that `;` ends. One without head tokens is skipped.
fn plain_statement(first: u32, count: u32) -> Option<Stmt>
    ensures { (more : Trees) → before result more ≡ plain_before first count more }
{
    if count == 0 {
        return None;
    }
    Some(Stmt {
        first,
        count,
        body: None,
    })
}

/// Appends the statement, where there is one.
fn add(stmts: &mut Vec<Stmt>, stmt: Option<Stmt>) -> Result<(), AllocError>
    ensures { OnOk result ((more : Trees)
        → join (trees_of stmts.new.items) more ≡ join (trees_of stmts.old.items) (before stmt more)) }
{
    if let Some(stmt) = stmt {
        stmts.push(stmt)?;
    }
    Ok(())
}

/// The statement at the front of tokens whose first has the index `at`, or none where the tokens are no statements.
#[cycle(slow)]
fn statement(
    alloc: Global,
    tokens: &[Token],
    at: usize,
    depth: usize,
) -> Result<Option<First>, AllocError>
    requires small { at + length tokens.now ≤ most_bytes }
    requires levels { depth ≤ 16 }
    requires some { 0 < length tokens.now }
    ensures some { IfOk result (λ found. IfSome found (λ f. IsFirst depth at f.stmt f.len tokens.now)) }
    ensures none { IfOk result (λ found. IfNone found ((t : Trees) → ParsesAt depth at t tokens.now → ⊥)) }
{
    let count = head_len(tokens);
    if count == tokens.len() {
        return Ok(None);
    }
    let delimiter = &tokens[count];
    if is_sign(delimiter, b';') {
        return Ok(Some(First {
            stmt: plain_statement(at as u32, count as u32),
            len: count + 1,
        }));
    }
    if !is_sign(delimiter, b'{') {
        return Ok(None);
    }
    if depth == 16 {
        return Ok(None);
    }
    let rest = &tokens[count + 1..];
    let len = block_len(rest);
    if len == rest.len() {
        return Ok(None);
    }
    if !is_sign(&rest[len], b'}') {
        return Ok(None);
    }
    let Some(body) = level(alloc, &rest[..len], at + count + 1, depth + 1)? else {
        return Ok(None);
    };
    Ok(Some(First {
        stmt: Some(Stmt {
            first: at as u32,
            count: count as u32,
            body: Some(body),
        }),
        len: count + 1 + len + 1,
    }))
}

/// The statements that the tokens are, whose first has the index `at`, or none.
#[cycle(slow)]
fn level(
    alloc: Global,
    tokens: &[Token],
    at: usize,
    depth: usize,
) -> Result<Option<StmtList>, AllocError>
    requires small { at + length tokens.now ≤ most_bytes }
    requires levels { depth ≤ 16 }
    ensures some { IfOk result (λ found. IfSome found (λ list. ParsesAt depth at (trees list) tokens.now)) }
    ensures none { IfOk result (λ found. IfNone found ((t : Trees) → ParsesAt depth at t tokens.now → ⊥)) }
{
    let mut stmts = Vec::new(alloc);
    let mut read = 0usize;
    while read < tokens.len() {
        let Some(First { stmt, len }) = statement(alloc, &tokens[read..], at + read, depth)? else {
            return Ok(None);
        };
        add(&mut stmts, stmt)?;
        read += len;
    }
    Ok(Some(StmtList::from_vec(stmts)))
}

/// The statements of the tokens, or none where they are no statements.
pub(crate) fn slow_forest(alloc: Global, tokens: &[Token]) -> Result<Option<StmtList>, AllocError>
    requires { length tokens.now ≤ most_bytes }
    ensures some { IfOk result (λ found. IfSome found (λ list. Parses tokens.now (trees list))) }
    ensures none { IfOk result (λ found. IfNone found ((t : Trees) → Parses tokens.now t → ⊥)) }
{
    level(alloc, tokens, 0, 0)
}

/// How many braces are open behind the tokens.
pub(crate) fn open_braces(tokens: &[Token]) -> usize
    requires { length tokens.now ≤ most_bytes }
    ensures count { result ≡ open_braces tokens.now }
    ensures few { result ≤ length tokens.now }
{
    let mut open = 0usize;
    for token in tokens {
        if is_sign(token, b'{') {
            open += 1;
        } else if is_sign(token, b'}') {
            open = open.saturating_sub(1);
        }
    }
    open
}

/// Whether the token at the index ends a statement outside all braces.
fn ends_at(tokens: &[Token], index: usize) -> bool
    requires small { length tokens.now ≤ most_bytes }
    requires within { index < length tokens.now }
    ensures ends { result ≡ true → EndsStatement tokens.now index }
    ensures all { EndsStatement tokens.now index → result ≡ true }
{
    let open = open_braces(&tokens[..index]);
    let token = &tokens[index];
    (is_sign(token, b';') && open == 0) || (is_sign(token, b'}') && open == 1)
}

/// Where the statement outside all braces that is open behind the tokens begins.
fn block_start(tokens: &[Token]) -> usize
    requires { length tokens.now ≤ most_bytes }
    ensures { BeginsAt tokens.now result }
{
    let mut start = 0;
    for index in 0..tokens.len() {
        if ends_at(tokens, index) {
            start = index + 1;
        }
    }
    start
}

/// The tokens of the keyword and of the name of the block that is open behind the first `upto` tokens.
pub(crate) fn slow_enclosing(tokens: &[Token], upto: usize) -> (Option<usize>, Option<usize>)
    requires small { length tokens.now ≤ most_bytes }
    requires within { upto ≤ length tokens.now }
    ensures { IsBlock (take upto tokens.now) result }
{
    let read = &tokens[..upto];
    let start = block_start(read);
    (keyword_at(read, start), name_at(read, start + 1))
}
