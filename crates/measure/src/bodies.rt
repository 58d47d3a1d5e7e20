//! Reads a body of many like lines and prints how many statements it has. With a third word it also prints how long the
//! reading took, without tokens and statements.

use crate::words::{number, word};
use pat_read::{BodyPlace, read_body};
use std::alloc::{AllocError, Global};
use std::io;
use std::io::Print;
use std::rt::Clock;
use std::time::Instant;
use stil_ast::WordList;
use stil_lex::{Token, TokenList, lex};
use stil_tree::{StmtList, forest};
use text_bytes::MOST_BYTES;

/// A line with two assignments; by their words one with a long repeat, and one with data of thirty-two characters.
fn line_of(kind: &str) -> &'static [u8] {
    match kind {
        "repeats" => b"V { a=\\r1048576 0; }\n",
        "wide" => b"V { bus=01010101HLHLXXXX01010101HLHLXXXX; }\n",
        _ => b"V { a=0; b=1; }\n",
    }
}

/// A line so often.
fn text_of(alloc: Global, line: &[u8], count: u32) -> Result<Vec<u8>, AllocError> {
    let mut text = Vec::new(alloc);
    for _ in 0..count {
        text.extend_from_slice(line)?;
    }
    Ok(text)
}

/// The tokens of a text that is not too long.
fn tokens_of(alloc: Global, text: &[u8]) -> Option<TokenList> {
    if text.len() > MOST_BYTES {
        return None;
    }
    lex(alloc, text).ok()
}

/// The statements of tokens that are not too many.
fn stmts_of(alloc: Global, tokens: &[Token]) -> Option<StmtList> {
    if tokens.len() > MOST_BYTES {
        return None;
    }
    forest(alloc, tokens).ok()
}

/// How many statements a text has that was lexed.
fn count_of(alloc: Global, text: &[u8], tokens: &[Token], stmts: &StmtList) -> Option<usize> {
    let words = WordList::from_vec(Vec::new(alloc));
    let body = read_body(alloc, text, tokens, stmts, BodyPlace::Pattern, &words).ok()?;
    Some(body.len())
}

/// Reads the body of a text, and prints what that took if it is asked to.
fn measure<R: Clock + Print + AllocGlobal>(rt: &R, text: &[u8], timed: bool) -> io::Result<()> {
    let alloc = rt.alloc();
    let Some(tokens) = tokens_of(alloc, text) else {
        return println!(rt; "no tokens");
    };
    let Some(stmts) = stmts_of(alloc, tokens.as_slice()) else {
        return println!(rt; "no statements");
    };
    let start = Instant::now(rt)?;
    let count = count_of(alloc, text, tokens.as_slice(), &stmts);
    let taken = start.elapsed(rt)?;
    println!(rt; "{} statements", count.unwrap_or(0))?;
    if timed {
        println!(rt; "{} bytes in {} ms", text.len(), taken.as_millis())?;
    }
    Ok(())
}

/// Measures a body by the words behind `bodies`.
pub fn run<R: Clock + Print + AllocGlobal>(rt: &R, words: &[String]) -> io::Result<()> {
    let text = text_of(rt.alloc(), line_of(word(words, 0)), number(words, 1))?;
    measure(rt, text.as_slice(), words.len() > 2)
}
