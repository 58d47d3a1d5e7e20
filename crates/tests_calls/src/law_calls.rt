use site_meaning::{
    accepted_plan_gives_parts, batches_are_pieces, equal_parts_record_alike, moments_rise,
    part_is_alone, part_says_what_plan_says, played_states_are_steps, polls_are_counted,
    polls_are_true, sound_is_touchdown, touchdown_is_sound, trials_are_true,
};

#[test]
fn laws_answer() {
    played_states_are_steps();
    moments_rise();
    batches_are_pieces();
    trials_are_true();
    polls_are_true();
    polls_are_counted();
    sound_is_touchdown();
    touchdown_is_sound();
    part_says_what_plan_says();
    part_is_alone();
    equal_parts_record_alike();
    accepted_plan_gives_parts();
}
