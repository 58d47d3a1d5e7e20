//! Lines of content, whose parts in braces are filled in.

use std::alloc::{AllocError, Global};

/// What stands in braces.
#[derive(Clone, Copy)]
enum Filling<'a> {
    /// `{N*TEXT}`: the text so many times.
    Times(usize, &'a str),
    /// `{A}` or `{A+B}`: A times the number of the pass of a repetition, counted from 0, plus B.
    Sum(u64, u64),
}

/// What the braces say, where they say anything; else they stand for themselves.
fn filling_of(inside: &str) -> Option<Filling<'_>> {
    if let Some((times, text)) = inside.split_once('*') {
        return Some(Filling::Times(times.parse().ok()?, text));
    }
    match inside.split_once('+') {
        Some((factor, other)) => { Some(Filling::Sum(factor.parse().ok()?, other.parse().ok()?)) }
        None => Some(Filling::Sum(inside.parse().ok()?, 0)),
    }
}

/// Puts what fills braces in this pass.
fn put_filling(
    alloc: Global,
    content: &mut Vec<u8>,
    filling: Filling,
    pass: u64,
) -> Result<(), AllocError> {
    match filling {
        Filling::Times(times, text) => {
            for _ in 0..times {
                content.extend_from_slice(text.as_bytes())?;
            }
        }
        Filling::Sum(factor, other) => {
            let number = factor.saturating_mul(pass).saturating_add(other);
            let number = format!(in alloc; "{number}")?;
            content.extend_from_slice(number.as_bytes())?;
        }
    }
    Ok(())
}

/// Puts a part of a line that stands behind an opening brace.
fn put_braced(
    alloc: Global,
    content: &mut Vec<u8>,
    part: &str,
    pass: u64,
) -> Result<(), AllocError> {
    if let Some((inside, behind)) = part.split_once('}') {
        if let Some(filling) = filling_of(inside) {
            put_filling(alloc, content, filling, pass)?;
            content.extend_from_slice(behind.as_bytes())?;
            return Ok(());
        }
    }
    content.extend_from_slice(b"{")?;
    content.extend_from_slice(part.as_bytes())?;
    Ok(())
}

/// Puts a line, whose parts in braces are filled in for this pass.
pub fn put_filled(
    alloc: Global,
    content: &mut Vec<u8>,
    line: &str,
    pass: u64,
) -> Result<(), AllocError> {
    let (front, rest) = match line.split_once('{') {
        Some((front, rest)) => (front, Some(rest)),
        None => (line, None),
    };
    content.extend_from_slice(front.as_bytes())?;
    if let Some(rest) = rest {
        for part in rest.split('{') {
            put_braced(alloc, content, part, pass)?;
        }
    }
    Ok(())
}
