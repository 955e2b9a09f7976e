//! The update module for a disk with two partitions.
#![tactic(auto)]

mod acting;
mod artifact;
mod blocks;
mod committing;
mod copying;
mod downloading;
mod image;
mod laws;
mod layout;
mod mem_blocks;
mod partition;
mod readiness;
mod replying;
mod report;
mod settling;

pub use acting::act;
pub use blocks::Blocks;
pub use laws::{each_boot_is_whole, the_disk_in_numbers};
pub use layout::LEAST_SIZE;
pub use mem_blocks::MemBlocks;
pub use partition::Partition;
pub use report::AbAct;
