//! What a device says that it has: its provides, what an artifact makes of them, and which of the
//! artifact's wants they don't meet.
#![tactic(auto)]

mod change;
mod effect;
mod laws;
mod length;
mod marks;
mod merge;
mod pattern;
mod provides;
mod row;
mod window;

pub use change::{Change, Clears, PatternList, ValueList, Want, WantList};
pub use effect::{after, broken, first_unmet, group_key, name_key};
pub use laws::{
    after_by_key, broken_by_key, patterns_are_decided, provides_are_a_map, same_look_ups_same_map,
    wants_are_told,
};
pub use length::{MapLength, after_length};
pub use pattern::Pattern;
pub use provides::Provides;

#[cfg(test)]
mod tests;
