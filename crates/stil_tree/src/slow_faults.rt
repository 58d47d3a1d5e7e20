//! The fault of tokens by its definition, plainly and slowly: at each token from the left, and at the end, all that stands
//! before it is looked at anew.

ghost use Rattle.std.specs.Prelude.{◌≡◌, ◌≤◌, ◌<◌, length, IfSome, IfNone};
ghost use Rattle.std.specs.List.{list_any};
ghost use Rattle.text_bytes.specs.Limits.{most_bytes};
ghost use Rattle.stil_tree.specs.Signs.{is_delimiter};
ghost use Rattle.stil_tree.specs.Blocks.{open_braces};
ghost use Rattle.stil_tree.specs.Faults.{IsFault};
ghost use Rattle.stil_tree.specs.SlowFaults.{head_start, last_opening, unfinished, refusal_at, refusal_at_end};
ghost use Rattle.stil_tree.specs.declared.fault.TreeFault.{TreeFault};

use crate::builder::is_sign;
use crate::fault::TreeFault;
use crate::slow::{is_delimiter, open_braces};
use stil_lex::Token;

/// Whether a delimiter stands among the tokens.
fn has_delimiter(tokens: &[Token]) -> bool
    ensures { result ≡ list_any is_delimiter tokens.now }
{
    tokens.iter().any(|t| is_delimiter(t))
}

/// Where the head begins that is not finished behind the tokens: the first index from which on no delimiter stands.
fn head_start(tokens: &[Token]) -> usize
    ensures { result ≡ head_start tokens.now }
{
    for start in 0..tokens.len() {
        if !has_delimiter(&tokens[start..]) {
            return start;
        }
    }
    tokens.len()
}

/// The last `{` with which so many braces are open.
fn last_opening(tokens: &[Token], braces: usize) -> usize
    requires { length tokens.now ≤ most_bytes }
    ensures { result ≡ last_opening braces tokens.now (length tokens.now) }
{
    let mut place = 0;
    for index in 0..tokens.len() {
        if is_sign(&tokens[index], b'{') && open_braces(&tokens[..index]) + 1 == braces {
            place = index;
        }
    }
    place
}

/// The refusal of a head that is not finished where it must be.
fn unfinished(tokens: &[Token]) -> Option<TreeFault>
    ensures { result ≡ unfinished tokens.now }
{
    let start = head_start(tokens);
    if start < tokens.len() {
        Some(TreeFault::OpenStatement(start))
    } else {
        None
    }
}

/// The refusal of a token behind others.
fn refusal_at(front: &[Token], token: &Token) -> Option<TreeFault>
    requires { length front.now ≤ most_bytes }
    ensures { result ≡ refusal_at front.now token.now }
{
    if is_sign(token, b'{') && open_braces(front) == 16 {
        Some(TreeFault::TooDeep(front.len()))
    } else if !is_sign(token, b'}') {
        None
    } else if open_braces(front) == 0 {
        Some(TreeFault::StrayClose(front.len()))
    } else {
        unfinished(front)
    }
}

/// The refusal of the end of the tokens.
fn refusal_at_end(tokens: &[Token]) -> Option<TreeFault>
    requires { length tokens.now ≤ most_bytes }
    ensures { result ≡ refusal_at_end tokens.now }
{
    let open = open_braces(tokens);
    if 0 < open {
        Some(TreeFault::OpenBlock(last_opening(tokens, open)))
    } else {
        unfinished(tokens)
    }
}

/// The fault of the tokens, or none where they have none.
pub(crate) fn slow_tree_fault(tokens: &[Token]) -> Option<TreeFault>
    requires { length tokens.now ≤ most_bytes }
    ensures some { IfSome result (λ fault. IsFault tokens.now fault) }
    ensures none { IfNone result ((fault : TreeFault) → IsFault tokens.now fault → ⊥) }
{
    for at in 0..tokens.len() {
        if let Some(fault) = refusal_at(&tokens[..at], &tokens[at]) {
            return Some(fault);
        }
    }
    refusal_at_end(tokens)
}
