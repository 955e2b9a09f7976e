//! The database of a device: two slots on its disk, of which a selector picks one.
#![tactic(auto)]

mod laws;
mod layout;
mod reading;
mod store;
mod writing;

pub use laws::{areas_without_cells, the_area_in_numbers, zeros_are_empty};
pub use store::{MountFault, Store};
