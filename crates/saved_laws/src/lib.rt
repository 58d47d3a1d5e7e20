//! Laws of saved programs: on which bytes a refusal hangs, and how long a saved form is at most.
#![tactic(auto)]

mod laws;

pub use laws::{
    no_shorter_no_longer, other_first_bytes, other_version, refused_at_a_field,
    same_up_to_the_field, saved_is_short, torn_at_the_end,
};
