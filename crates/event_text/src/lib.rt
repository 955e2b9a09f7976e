//! The events of a journal as lines of text.
#![tactic(auto)]

mod line;

pub use line::{line_of, spelled};

#[cfg(test)]
mod tests;
