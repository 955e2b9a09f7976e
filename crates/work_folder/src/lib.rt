//! Writes the files of an artifact into the work folder.
#![tactic(auto)]

mod append;
mod copy;
mod fault;
mod fill;
mod groups;
mod header;
mod laws;
mod names;
mod trees;
mod values;

pub use fault::PrepareFault;
pub use fill::prepare;
pub use laws::{only_payloads_differ, right_sums_never_differ};
