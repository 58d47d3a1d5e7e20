//! The block of a place, which a fault names.

ghost use Rattle.std.specs.Prelude.{◌≡◌, ◌+◌, ◌-◌, ◌≤◌, ◌<◌, ◌^◌, ◌++◌, ◌∷◌, [], List, length, take, slice_get};
ghost use Rattle.stil_tree.specs.Blocks.{BeginsAt, IsBlock, keyword_at, name_if};
ghost use Rattle.stil_tree.specs.Step.{IsSpot};
ghost use Rattle.stil_lex.specs.declared.token.Token as declared;

use crate::builder::is_sign;
use stil_lex::{Token, TokenKind};

/// Where the open statement outside all braces begins, and how many braces are open.
#[derive(Clone, Copy)]
struct Spot {
    start: usize,
    braces: usize,
}

/// The spot behind one token more, which has the index `at`.
fn spot_behind(spot: Spot, at: usize, token: &Token) -> Spot
    requires few { spot.braces ≤ at }
    requires small { at < 2 ^ 63 }
    ensures spot { (read : List declared.Token) → length read ≡ at → IsSpot read spot.start spot.braces
        → IsSpot (read ++ token.now ∷ []) result.start result.braces }
    ensures few { result.braces ≤ at + 1 }
{
    let Spot { start, braces } = spot;
    if is_sign(token, b'{') {
        Spot {
            start,
            braces: braces + 1,
        }
    } else if is_sign(token, b'}') {
        let start = if braces == 1 { at + 1 } else { start };
        Spot {
            start,
            braces: braces.saturating_sub(1),
        }
    } else if is_sign(token, b';') && braces == 0 {
        Spot {
            start: at + 1,
            braces,
        }
    } else {
        spot
    }
}

/// Where the statement outside all braces that is open behind the tokens begins.
fn block_start(tokens: &[Token]) -> usize
    ensures { BeginsAt tokens.now result }
{
    let mut spot = Spot {
        start: 0,
        braces: 0,
    };
    for (at, token) in tokens.iter().enumerate() {
        spot = spot_behind(spot, at, token);
    }
    spot.start
}

/// The index, where a token stands there.
pub(crate) fn keyword_at(tokens: &[Token], index: usize) -> Option<usize>
    ensures { result ≡ keyword_at tokens.now index }
{
    if index < tokens.len() {
        Some(index)
    } else {
        None
    }
}

/// The index, where a token stands there that may be a name.
pub(crate) fn name_at(tokens: &[Token], index: usize) -> Option<usize>
    ensures { result ≡ name_if (slice_get tokens.now index) index }
{
    if index < tokens.len() && matches!(tokens[index].kind, TokenKind::Word | TokenKind::Name) {
        Some(index)
    } else {
        None
    }
}

/// The tokens of the keyword and of the name of the block that is open behind the first `upto` tokens.
///
/// The block is the statement outside all braces. Its keyword is its first token, and its name its second, where that is
/// a Word or a Name.
pub fn enclosing(tokens: &[Token], upto: usize) -> (Option<usize>, Option<usize>)
    requires { upto ≤ length tokens.now }
    ensures { IsBlock (take upto tokens.now) result }
{
    let read = &tokens[..upto];
    let start = block_start(read);
    (keyword_at(read, start), name_at(read, start + 1))
}
