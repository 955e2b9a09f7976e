//! Where texts are written, and where trees are read.
#![tactic(auto)]

mod line;
mod mem_sink;
mod mem_source;
mod no_sink;
mod reading;
mod sink;
mod source;

pub use line::{LONGEST_LINE, Line};
pub use mem_sink::MemSink;
pub use mem_source::{FileList, MemSource, TreeFile};
pub use no_sink::NoSink;
pub use reading::fill;
pub use sink::{Sink, SinkFault};
pub use source::{Source, SourceFault};

#[cfg(test)]
mod source_tests;
#[cfg(test)]
mod tests;
