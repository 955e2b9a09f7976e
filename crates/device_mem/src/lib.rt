//! A device in memory, whose answers, losses and faults are planned.
#![tactic(auto)]

mod area;
mod bytes;
mod calls;
mod device;
mod disk;
mod folder;
mod log;
mod moment;
mod script;
mod told;
mod work;

pub use area::AreaBytes;
pub use device::MemDevice;
pub use disk::MemDisk;
pub use moment::{Moment, moment_at};
pub use script::{AnswerList, LossAt, LossList, Plan, Script, Tear};
pub use work::{WorkFile, WorkList};
