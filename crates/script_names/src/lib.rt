//! Names of state scripts.
#![tactic(auto)]

mod laws;
mod lending;
mod place;
mod script;
mod site;

pub use laws::{
    added_names_are_held, digits_come_first, names_are_due_where_they_say, names_are_texts,
};
pub use lending::{DueNames, due};
pub use place::{Action, Place, Stage};
pub use script::{AddFault, ScriptList, ScriptName};
pub use site::Site;

#[cfg(test)]
mod tests;
