//! The blocks of a text, from its bytes.

ghost use Rattle.std.specs.Prelude.{◌≡◌, ◌≤◌, ◌⊎◌, length, IfOk, IfErr, MatchResult};
ghost use Rattle.text_bytes.specs.Limits.{most_bytes};
ghost use Rattle.stil_lex.specs.Tokens.{Reads};
ghost use Rattle.stil_ast.specs.declared.blocks.Blocks.{Blocks};
ghost use Rattle.stil_ast.specs.declared.fault.StilFault.{StilFault};
ghost use Rattle.answers.specs.declared.short.Short.TheVariants as refusal;
ghost use Rattle.stil_ast.specs.Data.OneText.{AreOfOneText};
ghost use Rattle.stil_ast.specs.Faults.FrontFaults.{read_as, refused_by};
ghost use Rattle.stil_program.specs.Front.{IsFront, IsRefusedFor, FrontAnswers};

use crate::statements::statements_refused;
use crate::tokens::tokens_refused;
use std::alloc::Global;
use stil_ast::{Blocks, StilRefusal};
use stil_lex::{Token, lex_front};
use stil_read::read_blocks;
use stil_tree::forest;

/// The blocks of a text, by its tokens.
fn read_tokens(alloc: Global, bytes: &[u8], tokens: &[Token]) -> Result<Blocks, StilRefusal>
    requires reads { Reads bytes.now tokens.now }
    requires few { length tokens.now ≤ most_bytes }
    ensures { FrontAnswers bytes.now result }
{
    match forest(alloc, tokens) {
        Ok(stmts) => read_blocks(alloc, bytes, tokens, &stmts),
        Err(fault) => Err(statements_refused(alloc, bytes, tokens, fault)),
    }
}

/// The blocks of a text, or why it has none.
fn read_bytes(alloc: Global, bytes: &[u8]) -> Result<Blocks, StilRefusal>
    requires { length bytes.now ≤ most_bytes }
    ensures { FrontAnswers bytes.now result }
{
    match lex_front(alloc, bytes) {
        Ok(tokens) => read_tokens(alloc, bytes, tokens.as_slice()),
        Err(stop) => Err(tokens_refused(alloc, bytes, stop.read.as_slice(), stop.fault)),
    }
}

/// The blocks of a text, or its first fault: that of its tokens, else that of its statements, else that of its blocks.
///
/// A fault of tokens has the line of its place, and its block is read from the tokens that end before the place. A text
/// that ends inside a block has the line of the innermost open `{`, and its block is read from all tokens. A head that
/// isn't finished has the line of its first token, and its block is read from the tokens before the `}` or the end. A
/// `}` or `{` that is refused has its own line, and its block is read up to it and with it. For the faults of blocks see
/// `read_blocks`. Lines count from 1. A text has at most 16,777,216 bytes.
pub fn read_text(alloc: Global, bytes: &[u8]) -> Result<Blocks, StilRefusal>
    requires { length bytes.now ≤ most_bytes }
    ensures text { IfOk result (λ blocks. AreOfOneText blocks) }
    ensures found { IfOk result (λ blocks. IsFront bytes.now (read_as blocks)) }
    ensures only { (blocks : Blocks) → IsFront bytes.now (read_as blocks)
        → MatchResult result (λ read. read ≡ blocks) (λ e. e ≡ refusal.NoMemory) }
    ensures fault { IfErr result (λ e. (e ≡ refusal.NoMemory) ⊎ IsRefusedFor bytes.now e) }
    ensures refused { (fault : StilFault) → IsFront bytes.now (refused_by fault)
        → MatchResult result (λ _. ⊥) (λ e. (e ≡ refusal.NoMemory) ⊎ (e ≡ refusal.Fault fault)) }
{
    read_bytes(alloc, bytes)
}
