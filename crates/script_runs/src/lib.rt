//! Runs of state scripts.
#![tactic(auto)]

mod run;

pub use flow_words::Mode;
pub use run::{RunEnd, run_due};

#[cfg(test)]
mod tests;
