//! What a command answers.

ghost use Rattle.std.specs.Prelude.{◌≡◌};

use admit::Refusal;
use client_words::UsageFault;
use flow_table::{Outcome, State};

/// What a command did.
#[derive(Clone, Copy, Debug, PartialEq, Eq)]
pub enum Good {
    Committed,
    /// The deployment waits for an order.
    Waiting,
    RolledBack,
    Shown,
    /// The tree would be taken.
    Admitted,
    /// Deployments were simulated, which no call of this crate does.
    Simulated,
}

/// Why a command has to wait: a deployment stands in this state.
#[derive(Clone, Copy, Debug, PartialEq, Eq)]
pub enum NotNow {
    /// It has to end before another begins.
    InProgress(State),
    /// It has to be resumed first.
    MustResume(State),
    /// It can't be rolled back.
    NoRollback(State),
}

/// What a command answers.
#[derive(Drop)]
pub enum Status {
    /// It did what it says.
    Done(Good),
    /// The tree isn't taken.
    Refused(Refusal),
    /// There is no deployment to go on with.
    NoUpdate,
    /// The deployment ended, and the old and the new are mixed.
    Inconsistent,
    /// The deployment goes on after a reboot.
    RebootNeeded,
    /// The disk failed.
    DiskFault,
    /// The tree couldn't be read.
    SourceFault,
    /// Want of memory, before anything was started.
    NoMemory,
    /// The sink failed, and a front of the text was written.
    SinkFault,
    /// The words are no command.
    Usage(UsageFault),
    /// Power was lost.
    PowerOff,
    /// The store is no record, or its picked cell is none: the offset of the first wrong field, for a cell with 200,000 added.
    BadStore(u32),
    /// The record of the deployment would have so many bytes, and more than 131,072.
    TooLarge(u64),
    /// Not in the state in which the deployment stands.
    NotNow(NotNow),
    /// The deployment ended, and the old is kept or was taken back.
    NotInstalled(Outcome),
}

impl Status {
    ghost use Rattle.client_top.specs.Answers.{number_of};

    /// The exit status of the program.
    pub fn number(&self) -> u8
        ensures { result ≡ number_of self.now }
    {
        match self {
            Status::Done(_) => 0,
            Status::Refused(_) => 1,
            Status::NoUpdate => 2,
            Status::Inconsistent => 3,
            Status::RebootNeeded => 4,
            Status::DiskFault => 5,
            Status::SourceFault => 6,
            Status::NoMemory => 7,
            Status::SinkFault => 8,
            Status::Usage(_) => 9,
            Status::PowerOff => 10,
            Status::BadStore(_) => 11,
            Status::TooLarge(_) => 12,
            Status::NotNow(_) => 13,
            Status::NotInstalled(_) => 14,
        }
    }
}
