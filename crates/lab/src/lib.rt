//! Boots in a row on a device in memory, and what a seed draws for them.
#![tactic(auto)]

mod boots;
mod counts;
mod draws;
mod laws;
mod play;
mod program;
mod runs;
mod tree;

pub use boots::campaign;
pub use counts::Counts;
pub use draws::{Generator, Round};
pub use laws::{
    answers_tell_what_is_held, losses_come_from_cuts, notes_are_a_chain, resumes_end_a_deployment,
    rounds_are_short, simulations_add_up, the_old_or_the_new_is_held,
};
pub use play::simulate;
pub use program::top;
pub use runs::{BootRun, CommandList, Runs};
pub use tree::tree_of;
