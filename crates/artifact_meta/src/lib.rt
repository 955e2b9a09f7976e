//! The files of an artifact that say what it is: `version`, `header-info` and `type-info`.
//!
//! Each is read as JSON. A reader answers the file's fields, or the first fault in the order of
//! [`Field`]; inside one field a list's items come in order and keys in byte order, and of a pair the
//! key comes before the value. Keys that no field names don't count, and `null` stands for the
//! absence of a field.
#![tactic(auto)]

mod fault;
mod fields;
mod header;
mod info;
mod kinds;
mod laws;

pub use fault::{Field, MetaFault, MetaFile};
pub use header::{HeaderInfo, read_header_info};
pub use info::{InfoList, TypeInfo, read_type_info, read_version};
pub use kinds::MOST_PAYLOADS;
pub use laws::{lists_are_read_in_order, no_reader_compares_types};
