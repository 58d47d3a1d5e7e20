//! Whether a line is the one that pieces print.

ghost use Rattle.std.specs.Prelude.{◌≡◌, ◌++◌, ◌↔◌, ℕ, List, IsTrue, MatchOption};
ghost use Rattle.std.specs.List.{flat_map, list_all};
ghost use Rattle.tester_types.specs.Printing.{piece_text, is_bare, quoted, printed_name};

use itoa::Buffer;
use tester_types::Piece;

/// Whether a line is the one that these pieces print.
pub fn is_printed(line: &[u8], pieces: &[Piece]) -> bool
    ensures { IsTrue result ↔ (line.now ≡ flat_map piece_text pieces.now) }
{
    let mut left = line;
    for piece in pieces {
        match behind_piece(left, *piece) {
            Some(rest) => left = rest,
            None => return false,
        }
    }
    left.is_empty()
}

/// What stands behind a piece.
fn behind_piece<'a>(text: &'a [u8], piece: Piece) -> Option<&'a [u8]>
    ensures { MatchOption result ((rest : List ℕ) → text.now ≡ piece_text piece.entry ++ rest → ⊥)
        (λ rest. text.now ≡ piece_text piece.entry ++ rest.now) }
{
    match piece {
        Piece::Text(bytes) => behind(text, bytes),
        Piece::Number(number) => behind(text, Buffer::new().format(number).as_bytes()),
        Piece::Name(name) => behind_name(text, name),
        Piece::Title([]) => behind(text, b"-"),
        Piece::Title(name) => behind_name(text, name),
    }
}

/// What stands behind a name as it is printed.
fn behind_name<'a>(text: &'a [u8], name: &[u8]) -> Option<&'a [u8]>
    ensures { MatchOption result ((rest : List ℕ) → text.now ≡ printed_name name.now ++ rest → ⊥)
        (λ rest. text.now ≡ printed_name name.now ++ rest.now) }
{
    if !name.is_empty() && is_bare_name(name) {
        behind(text, name)
    } else {
        behind_quoted(text, name)
    }
}

/// Whether a name is printed without quotes.
fn is_bare_name(name: &[u8]) -> bool
    ensures { result ≡ list_all is_bare name.now }
{
    name.iter().all(|byte| *byte >= 0x21 && *byte <= 0x7E)
}

/// What stands behind a name in quotes.
fn behind_quoted<'a>(text: &'a [u8], name: &[u8]) -> Option<&'a [u8]>
    ensures { MatchOption result ((rest : List ℕ) → text.now ≡ quoted name.now ++ rest → ⊥)
        (λ rest. text.now ≡ quoted name.now ++ rest.now) }
{
    let inner = behind(text, b"\"")?;
    let closing = behind(inner, name)?;
    behind(closing, b"\"")
}

/// What stands behind a front of the text, if it is one.
fn behind<'a>(text: &'a [u8], front: &[u8]) -> Option<&'a [u8]>
    ensures { MatchOption result ((rest : List ℕ) → text.now ≡ front.now ++ rest → ⊥)
        (λ rest. text.now ≡ front.now ++ rest.now) }
{
    text.strip_prefix(front)
}
