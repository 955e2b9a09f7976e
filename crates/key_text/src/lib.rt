//! Public keys in PEM form, and a signature in base64.
#![tactic(auto)]

mod der;
mod fault;
mod key;
mod laws;
mod pem;

pub use fault::KeyFault;
pub use key::read_keys;
pub use laws::texts_have_one_reading;
pub use pem::{TextFault, read_base64};
