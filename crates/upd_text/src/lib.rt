//! Names, values, short texts and numbers.
#![tactic(auto)]

mod fault;
mod laws;
mod list;
mod name;
mod number;
mod part;
#[cfg(test)]
mod tests;
mod value;

pub use fault::NameFault;
pub use laws::{names_and_values, numbers_round_trip};
pub use list::{CallList, KindList, ListOf, NoMemory};
pub use name::Name;
pub use number::{Text32, decimal, read_decimal, read_device_type};
pub use part::{has_slash, is_plain};
pub use value::Value;
