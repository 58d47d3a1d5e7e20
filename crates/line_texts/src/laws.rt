//! Laws of texts that are made of pieces and of statements.

ghost use Rattle.std.specs.Prelude.{◌≡◌, ℕ, true, List, []};
ghost use Rattle.stil_lex.specs.Pieces.{Piece};
ghost use Rattle.stil_lex.specs.Tokens.{spelled, tokens_of, Reads};
ghost use Rattle.stil_tree.specs.Grammar.{Parses};
ghost use Rattle.line_texts.specs.Said.{Said, pieces_of, trees_at};
ghost use Rattle.line_texts.specs.Tests.{are_pieces, fits};

/// A text of pieces has their tokens.
pub fn pieces_are_read()
    ensures { (pieces : List Piece) → are_pieces pieces [] ≡ true → Reads (spelled pieces) (tokens_of [] pieces) }
{}

/// The tokens of statements are these statements.
pub fn said_parses()
    ensures { (s : Said) → fits 0 s ≡ true → Parses (tokens_of [] (pieces_of s)) (trees_at 0 s) }
{}
