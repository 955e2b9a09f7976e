//! A device as the client sees it: a disk that may lose what isn't synced, a work folder, children, and a journal of what
//! happened.
#![tactic(auto)]

mod calls;
mod device;
mod events;
mod module_word;
mod told;

pub use calls::{Answer, Asked, Call, Down, Event, ModState, Off, Part, Query, Ran};
pub use device::{AREA, Device, ROOM, STATE_EVENTS};
pub use events::EventList;
pub use module_word::{ModuleWord, words_are_read};
pub use told::Told;

#[cfg(test)]
mod tests;
