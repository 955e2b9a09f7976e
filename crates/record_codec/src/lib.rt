//! The record of a deployment: read, written, and given another position.
#![tactic(auto)]

mod cell;
mod decoding;
mod entry;
mod fault;
mod held;
mod laws;
mod length;
mod position;
mod reader;
mod text;
mod writer;

pub use cell::{decode_cell, encode_cell};
pub use decoding::{decode, is_first_version};
pub use entry::{Db, Entry, Version};
pub use fault::DecodeFault;
pub use laws::{
    broken_marks_the_name, faults_of_the_front, one_cell, one_record, one_spelling_of_positions,
    records_are_read, records_differ_by_position,
};
pub use length::{LARGEST_RECORD, begun_length, encoded_length};
pub use writer::{encode_into, patch};
