//! Words of a line.

ghost use Rattle.std.specs.Prelude.{◌≡◌, ◌==◌, ◌&&◌, ◌++◌, ◌∷◌, ◌≤◌, ◌+◌, ℕ, false, length, take, drop, MatchOption};
ghost use Rattle.std.specs.List.{list_any, list_all};
ghost use Rattle.tester_types.specs.Printing.{is_bare};
ghost use Rattle.part_lines.specs.Words.{ends_quoted, is_named, is_gap, IsLastWord};

/// Whether these bytes are a name as it is printed.
pub fn is_named(bytes: &[u8]) -> bool
    ensures { result ≡ is_named bytes.now }
{
    match bytes {
        [] => false,
        [first, rest @ ..] => are_bare(bytes) || (*first == b'"' && ends_quoted(rest)),
    }
}

/// Whether all bytes may stand bare in a name.
fn are_bare(bytes: &[u8]) -> bool
    ensures { result ≡ list_all is_bare bytes.now }
{
    bytes.iter().all(|byte| *byte >= 0x21 && *byte <= 0x7E)
}

/// Whether bytes end with a double quote.
fn ends_quoted(bytes: &[u8]) -> bool
    ensures { result ≡ ends_quoted bytes.now }
{
    bytes.ends_with(b"\"")
}

/// What stands before the last blank of a line, and the word behind it; nothing where the line has no blank.
pub fn last_word(line: &[u8]) -> Option<(&[u8], &[u8])>
    ensures { MatchOption result (list_any is_gap line.now ≡ false)
        (λ parts. IsLastWord line.now parts.0.now parts.1.now) }
{
    let start = behind_gap(line);
    if start == 0 {
        return None;
    }
    Some((&line[..start - 1], &line[start..]))
}

/// The place behind the last blank of a line, and 0 where it has none.
fn behind_gap(line: &[u8]) -> usize
    ensures within { result ≤ length line.now }
    ensures word { list_any is_gap (drop result line.now) ≡ false }
    ensures gap { (start : ℕ) → result ≡ start + 1 → line.now ≡ take start line.now ++ 32 ∷ drop result line.now }
{
    let mut start = 0;
    for (at, byte) in line.iter().enumerate() {
        if *byte == b' ' {
            start = at + 1;
        }
    }
    start
}
