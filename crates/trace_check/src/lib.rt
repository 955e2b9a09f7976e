//! Transcripts of boots, and whether they are a way that the flow allows.
#![tactic(auto)]

mod calls;
mod check;
mod events;
mod finding;
mod form;
mod laws;
mod lines;
mod note;
mod notes;
mod read;
mod spelling;
mod stage;
mod tell;
mod verdict;
mod way;
mod weigh;
mod words;

pub use check::{LONGEST_TRACE, TraceStatus, check_trace};
pub use laws::{boots_begin_with_less, calls_have_their_types, verdicts_are_exact};
pub use note::{Deed, Note, NoteEnd, NoteHead, NoteList};
pub use notes::{ReadFault, read_notes};
pub use tell::write_note;
pub use verdict::{Verdict, judge};

#[cfg(test)]
mod tests;
