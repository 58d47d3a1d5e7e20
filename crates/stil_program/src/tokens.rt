//! The fault of a text that has no tokens.

ghost use Rattle.std.specs.Prelude.{◌≡◌, ◌≤◌, ◌⊎◌, length, take};
ghost use Rattle.text_bytes.specs.Limits.{most_bytes};
ghost use Rattle.stil_lex.specs.Tokens.{line_behind};
ghost use Rattle.stil_lex.specs.Faults.{IsFaultBehind};
ghost use Rattle.stil_lex.specs.declared.fault.LexFault.TheVariants as lexical;
ghost use Rattle.stil_program.specs.Places.{IsToldBehind, Tells};
ghost use Rattle.stil_program.specs.TokenFaults.{line_of_place, IsTokenFault};

use crate::told::told_behind;
use std::alloc::Global;
use stil_ast::{StilKind, StilRefusal};
use stil_lex::{LexFault, Token};
use text_bytes::line_feeds;

/// The line of a place of the text, from 1.
fn line_of_place(bytes: &[u8], at: usize) -> u32
    requires short { length bytes.now ≤ most_bytes }
    requires within { at ≤ length bytes.now }
    ensures { result ≡ line_of_place bytes.now at }
{
    1 + line_feeds(&bytes[..at]) as u32
}

/// The refusal that tells of a fault of this kind at this place, before which these tokens are read.
fn told_at(alloc: Global, bytes: &[u8], read: &[Token], kind: StilKind, at: usize) -> StilRefusal
    requires short { length bytes.now ≤ most_bytes }
    requires within { at ≤ length bytes.now }
    ensures { Tells (IsToldBehind bytes.now read.now kind (line_of_place bytes.now at)) result }
{
    told_behind(alloc, bytes, read, kind, line_of_place(bytes, at))
}

/// The refusal that tells of the fault of the text's tokens, before which these are read.
pub(crate) fn tokens_refused(
    alloc: Global,
    bytes: &[u8],
    read: &[Token],
    fault: LexFault,
) -> StilRefusal
    requires short { length bytes.now ≤ most_bytes }
    requires is { (fault ≡ lexical.NoMemory) ⊎ IsFaultBehind bytes.now read.now fault }
    ensures { Tells (IsTokenFault bytes.now) result }
{
    match fault {
        LexFault::NoMemory => StilRefusal::NoMemory,
        LexFault::BadByte(at) => told_at(alloc, bytes, read, StilKind::BadByte, at),
        LexFault::OpenQuote(at) => told_at(alloc, bytes, read, StilKind::OpenQuote, at),
        LexFault::OpenComment(at) => told_at(alloc, bytes, read, StilKind::OpenComment, at),
    }
}
