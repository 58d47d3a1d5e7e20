//! Cuts a STIL text into its tokens, in one pass over the text.
#![tactic(auto)]

mod byte;
mod fault;
mod front;
mod laws;
mod lexer;
mod list;
mod token;

pub use fault::LexFault;
pub use laws::{one_token_list, tokens_or_fault};
pub use lexer::{LexStop, lex, lex_front};
pub use list::TokenList;
pub use token::{Token, TokenKind};

#[cfg(test)]
mod slow;
#[cfg(test)]
mod slow_faults;
#[cfg(test)]
mod tests;
