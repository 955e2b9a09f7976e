//! What no row and no script shows: boots in a row and rounds of a seed, a source that changes, calls of the device in memory,
//! records, metadata and long texts, and the host's words and streams.

mod boots;
mod changing;
mod device;
mod records;
mod rounds;
mod streams;
mod texts;
mod words;
