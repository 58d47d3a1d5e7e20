//! The tokens of a whole text.

ghost use Rattle.std.specs.Prelude.{◌≡◌, ◌≤◌, ◌⊎◌, ◌++◌, [], List, length, IfOk, IfErr, OnOk, MatchResult};
ghost use Rattle.text_bytes.specs.Limits.{most_bytes};
ghost use Rattle.stil_lex.specs.Tokens.{Reads};
ghost use Rattle.stil_lex.specs.Faults.{IsFault, IsFaultBehind, ReadsOnto};
ghost use Rattle.stil_lex.specs.Step.{kept, feeds_of};
ghost use Rattle.stil_lex.specs.declared.token.Token.{Token};
ghost use Rattle.stil_lex.specs.declared.fault.LexFault.{LexFault};
ghost use Rattle.stil_lex.specs.declared.fault.LexFault.TheVariants.{NoMemory};

use crate::fault::LexFault;
use crate::front::front_of;
use crate::list::TokenList;
use crate::token::{Token, TokenKind};
use std::alloc::{AllocError, Global};
use text_bytes::line_feeds;

/// Why a text has no tokens, and those that stand before the place of its fault. Where there was no memory, they are some of them.
#[derive(Drop)]
pub struct LexStop {
    pub fault: LexFault,
    pub read: TokenList,
}

/// Appends the token, where it has a kind: a gap has none.
pub(crate) fn keep(
    tokens: &mut Vec<Token>,
    kind: Option<TokenKind>,
    start: u32,
    end: u32,
    line: u32,
) -> Result<(), AllocError>
    ensures { OnOk result (tokens.new.items ≡ tokens.old.items ++ kept kind start end line) }
{
    if let Some(kind) = kind {
        tokens.push(Token {
            kind,
            start,
            end,
            line,
        })?;
    }
    Ok(())
}

/// How many line feeds stand in a piece. A word and a sign have none.
fn feeds_of(kind: Option<TokenKind>, piece: &[u8]) -> usize
    ensures { result ≡ feeds_of kind piece.now }
{
    match kind {
        Some(TokenKind::Word) | Some(TokenKind::Sign(_)) => 0,
        Some(TokenKind::Name) | Some(TokenKind::Text) | None => line_feeds(piece),
    }
}

/// Appends the tokens of a text to none, in order, up to its fault with the smallest place.
fn read_onto(bytes: &[u8], tokens: &mut Vec<Token>) -> Result<(), LexFault>
    requires short { length bytes.now ≤ most_bytes }
    requires none { tokens.old.items ≡ [] }
    ensures { ReadsOnto bytes.now tokens.new.items result }
{
    let mut at = 0usize;
    let mut line = 1u32;
    while at < bytes.len() {
        let rest = &bytes[at..];
        let front = match front_of(rest, at) {
            Ok(front) => front,
            Err(fault) => return Err(fault),
        };
        let end = at + front.len;
        keep(tokens, front.kind, at as u32, end as u32, line)?;
        line += feeds_of(front.kind, &rest[..front.len]) as u32;
        at = end;
    }
    Ok(())
}

/// Only tests and measurements call it, the program calls `lex_front`: the tokens of a text, in order, or its fault with the
/// smallest place. A text has at most 16,777,216 bytes.
pub fn lex(alloc: Global, bytes: &[u8]) -> Result<TokenList, LexFault>
    requires { length bytes.now ≤ most_bytes }
    ensures found { IfOk result (λ tokens. Reads bytes.now tokens) }
    ensures only { (tokens : List Token) → Reads bytes.now tokens
        → MatchResult result (λ t. t ≡ tokens) (λ e. e ≡ NoMemory) }
    ensures fault { IfErr result (λ e. (e ≡ NoMemory) ⊎ IsFault bytes.now e) }
    ensures refused { (fault : LexFault) → IsFault bytes.now fault
        → MatchResult result (λ _. ⊥) (λ e. (e ≡ NoMemory) ⊎ (e ≡ fault)) }
{
    let mut tokens = Vec::new(alloc);
    match read_onto(bytes, &mut tokens) {
        Ok(()) => Ok(TokenList::from_vec(tokens)),
        Err(fault) => Err(fault),
    }
}

/// The tokens of a text, in order, or its fault with the smallest place and the tokens before it. A text has at most 16,777,216
/// bytes.
pub fn lex_front(alloc: Global, bytes: &[u8]) -> Result<TokenList, LexStop>
    requires { length bytes.now ≤ most_bytes }
    ensures found { IfOk result (λ tokens. Reads bytes.now tokens) }
    ensures fault { IfErr result (λ stop. (stop.fault ≡ NoMemory) ⊎ IsFaultBehind bytes.now stop.read stop.fault) }
{
    let mut tokens = Vec::new(alloc);
    match read_onto(bytes, &mut tokens) {
        Ok(()) => Ok(TokenList::from_vec(tokens)),
        Err(fault) => Err(LexStop {
            fault,
            read: TokenList::from_vec(tokens),
        }),
    }
}
