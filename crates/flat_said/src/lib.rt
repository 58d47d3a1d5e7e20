//! The flat text of a code as statements: it has their tokens, and the tokens are these statements, or nest too deep.
#![tactic(auto)]

mod laws;

pub use laws::{
    deep_has_no_statements, deep_is_refused, lexemes_are_said, nests_are_there,
    said_are_statements, text_is_said,
};
