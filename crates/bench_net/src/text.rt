//! A text as the lines that it is.
ghost use Rattle.std.specs.Prelude.{◌≡◌, ◌==◌, ◌<◌, ◌≤◌, ◌∷◌, map, length};
ghost use Rattle.std.specs.List.{position};
ghost use Rattle.std.specs.Str.Lines.{lines, strip_carriage_return};
ghost use Rattle.text_bytes.specs.Limits.{most_bytes};
ghost use Rattle.bench_net.specs.Net.{Reads};
ghost use Rattle.bench_net.specs.Fault.{Answers, IsFault};
ghost use Rattle.bench_net.specs.Views.{form_of};

use crate::fault::NetFault;
use crate::line::{Line, read_line};
use std::alloc::Global;

/// Where the first line feed stands.
fn line_end(text: &[u8]) -> Option<usize>
    ensures { result ≡ position (λ b. b == 10) text.now }
{
    text.iter().position(|byte| *byte == b'\n')
}

/// The line without the carriage return at its end.
fn strip_return(line: &[u8]) -> &[u8]
    ensures { result.now ≡ strip_carriage_return line.now }
{
    match line {
        [front @ .., b'\r'] => front,
        _ => line,
    }
}

/// The first line of a text that isn't empty, without its end, and what stands behind it.
fn first_line(text: &[u8]) -> (&[u8], &[u8])
    requires { 0 < length text.now }
    ensures line { lines text.now ≡ result.0.now ∷ lines result.1.now }
    ensures shorter { length result.1.now < length text.now }
{
    match line_end(text) {
        Some(end) => (strip_return(&text[..end]), &text[end + 1..]),
        None => (text, &text[text.len()..]),
    }
}

/// What each line of a text says, or the first line that has no form of a line.
pub(crate) fn read_lines(alloc: Global, bytes: &[u8]) -> Result<Vec<Line<'_>>, NetFault>
    requires { length bytes.now ≤ most_bytes }
    ensures { Answers (λ read. Reads bytes.now (map form_of read.items)) (IsFault bytes.now) result }
{
    let mut read = Vec::new(alloc);
    let mut rest = bytes;
    while !rest.is_empty() {
        let (line, more) = first_line(rest);
        match read_line(alloc, line)? {
            Some(form) => read.push(form)?,
            None => return Err(NetFault::Line(read.len() as u32 + 1)),
        }
        rest = more;
    }
    Ok(read)
}
