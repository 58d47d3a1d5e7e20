//! The statements of a text's tokens.

ghost use Rattle.std.specs.Prelude.{◌≡◌, ◌≤◌, ◌⊎◌, length, Ok, Err, IfOk, IfErr, MatchResult};
ghost use Rattle.text_bytes.specs.Limits.{most_bytes};
ghost use Rattle.stil_tree.specs.Trees.{Trees, trees};
ghost use Rattle.stil_tree.specs.Grammar.{Parses};
ghost use Rattle.stil_tree.specs.Faults.{IsFault};
ghost use Rattle.stil_tree.specs.Step.{forest_of};
ghost use Rattle.stil_tree.specs.declared.fault.TreeFault.{TreeFault};
ghost use Rattle.stil_tree.specs.declared.fault.TreeFault.TheVariants.{NoMemory};

use crate::builder::Builder;
use crate::fault::TreeFault;
use crate::stmt::StmtList;
use std::alloc::Global;
use stil_lex::Token;

fn forest_of(alloc: Global, tokens: &[Token]) -> Result<StmtList, TreeFault>
    requires { length tokens.now ≤ most_bytes }
    ensures { MatchResult result (λ list. forest_of tokens.now ≡ Ok (trees list))
        (λ e. (e ≡ NoMemory) ⊎ (forest_of tokens.now ≡ Err e)) }
{
    let mut builder = Builder::new(alloc);
    for (at, token) in tokens.iter().enumerate() {
        builder.token(at, token)?;
    }
    builder.finish(tokens.len())
}

/// The statements of the tokens, or their first fault from left to right. There are at most 16,777,216 tokens.
pub fn forest(alloc: Global, tokens: &[Token]) -> Result<StmtList, TreeFault>
    requires { length tokens.now ≤ most_bytes }
    ensures found { IfOk result (λ list. Parses tokens.now (trees list)) }
    ensures only { (wanted : Trees) → Parses tokens.now wanted
        → MatchResult result (λ list. trees list ≡ wanted) (λ e. e ≡ NoMemory) }
    ensures fault { IfErr result (λ e. (e ≡ NoMemory) ⊎ IsFault tokens.now e) }
    ensures refused { (fault : TreeFault) → IsFault tokens.now fault
        → MatchResult result (λ _. ⊥) (λ e. (e ≡ NoMemory) ⊎ (e ≡ fault)) }
{
    forest_of(alloc, tokens)
}
