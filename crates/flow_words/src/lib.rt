//! Words of calls: which lists of events a run of scripts makes, a state, and a boot; and the laws of such words.
#![tactic(auto)]

mod laws;
mod mode;
mod rows;

pub use laws::{
    a_block_is_tries, a_front_of_a_part_is_a_part, a_front_was_cut_off, a_part_begins_a_word,
    a_part_goes_on, a_word_is_its_steps, answers_decide, answers_decide_the_events,
    ends_tell_the_position, events_decide_the_end, ignored_runs_are_good,
    no_power_is_lost_in_a_part, nothing_is_a_part, orders_go_on, outcomes_have_causes,
    runs_are_blocks, states_are_valid, what_goes_well_ends_well, words_differ, words_of_scripts,
    words_of_states,
};
pub use mode::Mode;
pub use rows::{Child, Main, MainMode, Row, StageRun, row_at};
