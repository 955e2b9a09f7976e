//! The admission of an artifact's tree: what it says, or the first reason to refuse it.
#![tactic(auto)]

mod admitted;
mod chain;
mod fields;
mod laws;
mod lines;
mod place;
mod reading;
mod refusal;
mod scripts;
mod stop;
mod sums;
mod table;
mod text;

pub use admitted::Admitted;
pub use chain::{admit, admit_head};
pub use laws::{
    listed_sums_are_right, places_are_spelled, spelled_places, the_first_cause_is_told,
};
pub use lines::NumberList;
pub use place::{TreePlace, payload_name, place_of};
pub use refusal::{AdmitFault, Differs, Refusal, Which};
pub use sums::{PayloadFault, sum_payloads};
