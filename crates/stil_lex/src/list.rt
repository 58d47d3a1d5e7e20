//! The tokens of a text, in order.

use crate::token::Token;
use tester_types::Items;

/// Tokens in the order of their text.
pub type TokenList = Items<Token>;
