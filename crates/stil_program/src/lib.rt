//! From the bytes of a STIL text to its code, or its first fault over all passes: tokens, statements, blocks, signals and
//! groups, executives, and what they are compiled to.
#![tactic(auto)]

mod coding;
mod front_laws;
mod laws;
mod reading;
mod statements;
mod text;
mod tokens;
mod told;

pub use coding::{compiled, program};
pub use front_laws::one_front;
pub use laws::{code_is_shallow, code_keeps_loops, one_text_fault, sixth_pass_is_over_runs};
pub use reading::read_text;
pub use text::CompiledText;
