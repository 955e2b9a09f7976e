//! The host: its folders, programs and streams.
#![tactic(auto)]

mod children;
mod clear;
mod device;
mod disk;
mod endings;
mod failure;
mod fault;
mod files;
mod lock;
mod paths;
mod progress;
mod reply;
mod sink;
mod site;
mod source;
mod start;
mod words;
mod work;

pub use device::HostDevice;
pub use failure::{Failure, Failures, named, told};
pub use fault::HostFault;
pub use files::read_start;
pub use lock::{Lockable, hold};
pub use progress::{Progress, Watched, asks_progress};
pub use sink::HostSink;
pub use source::{HostSource, source_of};
pub use start::{begin, cannot_start, fill_streams, say_first};
pub use words::words_of;
