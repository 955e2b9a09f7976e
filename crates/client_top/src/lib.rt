//! The commands of the client.
#![tactic(auto)]

mod act;
mod begin;
mod call;
mod check;
mod laws;
mod order;
mod page;
mod show;
mod status;
mod tell;
mod trace;

pub use call::{obey, run};
pub use laws::{
    answers_are_exact, answers_tell_what_is_held, boots_follow_one_another, commands_are_fulfilled,
    ends_decide_the_answer, first_children_are_given_the_folder, folders_are_kept, halts_by_counts,
    installs_go_well, notes_tell_of_boots, nothing_else_is_traced, other_answers_start_nothing,
    resumes_come_to_an_end, the_old_or_the_new_is_held, worked_answers, worked_finds,
};
pub use status::{Good, NotNow, Status};
pub use trace::run_traced;
