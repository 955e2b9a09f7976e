//! The calls of a device, their answers, and the events that it keeps.

ghost use Rattle.std.specs.Prelude.{◌≡◌};

use upd_text::{Name, Text32};

/// What a module is called with.
#[derive(Clone, Copy, Debug, PartialEq, Eq)]
pub enum ModState {
    Download,
    ArtifactInstall,
    ArtifactReboot,
    ArtifactVerifyReboot,
    ArtifactCommit,
    ArtifactRollback,
    ArtifactRollbackReboot,
    ArtifactVerifyRollbackReboot,
    ArtifactFailure,
    Cleanup,
}

/// What a module is asked.
#[derive(Clone, Copy, Debug, PartialEq, Eq)]
pub enum Query {
    SupportsRollback,
    NeedsArtifactReboot,
}

/// What is started as a child.
#[derive(Drop)]
pub enum Call {
    Module {
        payload: u8,
        kind: Name,
        state: ModState,
    },
    Ask {
        payload: u8,
        kind: Name,
        query: Query,
    },
    Script(Name),
    SystemReboot,
}

impl Call {
    /// The same call.
    pub fn twin(&self) -> Call
        ensures { result ≡ self.now }
    {
        match self {
            Call::Module {
                payload,
                kind,
                state,
            } => Call::Module {
                payload: *payload,
                kind: kind.twin(),
                state: *state,
            },
            Call::Ask {
                payload,
                kind,
                query,
            } => Call::Ask {
                payload: *payload,
                kind: kind.twin(),
                query: *query,
            },
            Call::Script(name) => Call::Script(name.twin()),
            Call::SystemReboot => Call::SystemReboot,
        }
    }
}

/// How a child ended, or that it wasn't started.
#[derive(Drop)]
pub enum Answer {
    Exit(u8),
    /// The exit code, and the first bytes that the child wrote.
    Reply(u8, Text32),
    NotStarted,
}

impl Answer {
    /// The same answer.
    pub fn twin(&self) -> Answer
        ensures { result ≡ self.now }
    {
        match self {
            Answer::Exit(code) => Answer::Exit(*code),
            Answer::Reply(code, text) => Answer::Reply(*code, text.twin()),
            Answer::NotStarted => Answer::NotStarted,
        }
    }
}

/// What a device notes in its journal.
#[derive(Drop)]
pub enum Event {
    Start(Call),
    End(Answer),
    /// A pause of so many seconds.
    Pause(u32),
    /// Power was lost.
    Loss,
}

/// A part of the work folder: the folder of a payload's module, or that of the artifact's scripts.
#[derive(Clone, Copy, Debug, PartialEq, Eq)]
pub enum Part {
    Tree(u8),
    Scripts,
}

/// Why a call of the disk or of the work folder wasn't done.
#[derive(Clone, Copy, Debug, PartialEq, Eq)]
pub enum Down {
    /// The device is off.
    Off,
    /// The disk failed.
    Fault,
}

/// The device is off.
#[derive(Clone, Copy, Debug, PartialEq, Eq)]
pub struct Off;

/// How a child ended that was no question.
#[derive(Clone, Copy, Debug, PartialEq, Eq)]
pub enum Ran {
    Exit(u8),
    NotStarted,
    /// The device is off.
    Off,
}

/// How a question ended.
#[derive(Drop)]
pub enum Asked {
    /// The exit code, and the first bytes that the child wrote.
    Reply(u8, Text32),
    NotStarted,
    /// The device is off.
    Off,
}
