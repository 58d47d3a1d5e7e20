//! The line of a fail, read from its end.

ghost use Rattle.std.specs.Prelude.{◌≡◌, ◌∷◌, ◌++◌, [], ℕ, List, Bool, true, MatchOption};
ghost use Rattle.tester_types.specs.Printing.{is_bare};
ghost use Rattle.part_lines.specs.Lines.{is_one_line};
ghost use Rattle.log_parts.specs.Tries.{from_cycle, is_fail_line, is_seen, is_want};
ghost use Rattle.log_parts.specs.Step.{AreEnds, IsName};

use text_bytes::is_digit;

/// What the bytes from a place of a line on may be, with all that follows: a bare name or the rest of one, the rest of a
/// quoted name, a name.
#[derive(Clone, Copy)]
pub(crate) struct Name {
    bare: bool,
    quoted: bool,
    named: bool,
}

/// What the bytes from a place of a fail's line on may be, with all that follows: nothing, a word or the blank before it.
#[derive(Clone, Copy)]
pub(crate) struct Ends {
    ended: bool,
    cell: Name,
    gap_cell: bool,
    chain: Name,
    gap_chain: bool,
    seen: bool,
    gap_seen: bool,
    want: bool,
    gap_want: bool,
    signal: Name,
    gap_signal: bool,
    time: bool,
    gap_time: bool,
    cycle: bool,
}

/// Whether a line is that of a fail.
pub(crate) fn is_fail(line: &[u8]) -> bool
    requires { is_one_line line.now ≡ true }
    ensures { result ≡ is_fail_line line.now }
{
    match behind(line, b"fail ") {
        Some(words) => is_from_cycle(words),
        None => false,
    }
}

/// What stands behind a front of the line, if it is one.
fn behind<'a>(line: &'a [u8], front: &[u8]) -> Option<&'a [u8]>
    ensures { MatchOption result ((rest : List ℕ) → line.now ≡ front.now ++ rest → ⊥)
        (λ rest. line.now ≡ front.now ++ rest.now) }
{
    line.strip_prefix(front)
}

/// Whether these are the words of a fail from its cycle on.
fn is_from_cycle(words: &[u8]) -> bool
    ensures { result ≡ from_cycle words.now }
{
    let mut ends = at_end();
    let mut at = words.len();
    while at > 0 {
        at -= 1;
        ends = before(words[at], ends);
    }
    ends.cycle
}

/// What stands at the end of a line.
fn at_end() -> Ends
    ensures { AreEnds [] result }
{
    let none = Name {
        bare: false,
        quoted: false,
        named: false,
    };
    Ends {
        ended: true,
        cell: none,
        gap_cell: false,
        chain: none,
        gap_chain: false,
        seen: false,
        gap_seen: false,
        want: false,
        gap_want: false,
        signal: none,
        gap_signal: false,
        time: false,
        gap_time: false,
        cycle: false,
    }
}

/// What stands from a byte on, where this stands behind it.
fn before(byte: u8, behind: Ends) -> Ends
    ensures { (rest : List ℕ) → AreEnds rest behind → AreEnds (byte ∷ rest) result }
{
    let gap = byte == b' ';
    let digit = is_digit(byte);
    Ends {
        ended: false,
        cell: before_name(byte, behind.cell, behind.ended),
        gap_cell: gap && behind.cell.named,
        chain: before_name(byte, behind.chain, behind.gap_cell),
        gap_chain: gap && behind.chain.named,
        seen: is_seen(byte) && (behind.ended || behind.gap_chain),
        gap_seen: gap && behind.seen,
        want: is_want(byte) && behind.gap_seen,
        gap_want: gap && behind.want,
        signal: before_name(byte, behind.signal, behind.gap_want),
        gap_signal: gap && behind.signal.named,
        time: digit && (behind.time || behind.gap_signal),
        gap_time: gap && behind.time,
        cycle: digit && (behind.cycle || behind.gap_time),
    }
}

/// The same of a name.
fn before_name(byte: u8, behind: Name, follows: bool) -> Name
    ensures { (is_next : List ℕ → Bool) (rest : List ℕ) → IsName is_next rest behind → follows ≡ is_next rest
        → IsName is_next (byte ∷ rest) result }
{
    let bare = is_bare(byte) && (behind.bare || follows);
    let quote = byte == b'"';
    Name {
        bare,
        quoted: behind.quoted || (quote && follows),
        named: bare || (quote && behind.quoted),
    }
}

/// Whether a byte may stand bare in a name.
fn is_bare(byte: u8) -> bool
    ensures { result ≡ is_bare byte }
{
    byte >= 0x21 && byte <= 0x7E
}

/// Whether a byte is the letter of what was wanted.
fn is_want(byte: u8) -> bool
    ensures { result ≡ is_want byte }
{
    byte == b'L' || byte == b'H' || byte == b'T' || byte == b'l' || byte == b'h' || byte == b't'
}

/// Whether a byte is the letter of what was seen.
fn is_seen(byte: u8) -> bool
    ensures { result ≡ is_seen byte }
{
    byte == b'0' || byte == b'1' || byte == b'X' || byte == b'Z'
}
