//! What a site's tries, touchdowns and polls are, by definition, with the laws of polls.
#![tactic(auto)]

mod laws;

pub use laws::{
    accepted_plan_gives_parts, alike_parts_record_alike, batches_are_pieces,
    equal_parts_record_alike, moments_rise, part_is_alone, part_says_what_plan_says,
    played_states_are_steps, polls_are_counted, polls_are_true, sound_is_touchdown,
    touchdown_is_sound, trials_are_true,
};
