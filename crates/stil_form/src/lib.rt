//! What all readers of block forms share: the heads of statements and their parts, the clause of a reader's answer, and the
//! loop that finds the first fault in text order.
#![tactic(auto)]

mod fault;
mod front;
mod part;
mod reader;
mod setting;
mod source;
mod steps;
mod word;
mod words;

pub use fault::{FormFault, FormKind};
pub use front::{Reference, Span, index_front, reference_front};
pub use part::{Part, SignKind, part_of};
pub use reader::{Form, read_each, read_unskipped};
pub use setting::{Reader, first_of, has_block, head_at, inner_of, line_at, skips};
pub use source::{Source, body, first_part, head};
pub use steps::{StepForm, read_steps, read_unskipped_steps};
pub use word::{is_word, name_of};
pub use words::Words;
