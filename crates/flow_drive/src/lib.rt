//! The flow of a deployment: its states one after another, each kept before its first call.
#![tactic(auto)]

mod calls;
mod flow;
mod payloads;

pub use flow::{DriveEnd, drive};
