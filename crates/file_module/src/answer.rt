//! How the module ends.

ghost use Rattle.std.specs.Prelude.{◌≡◌};
ghost use Rattle.file_module.specs.Answers.{act_of, number_of};

/// How the module ended, which is the status of its program.
#[derive(Clone, Copy, Debug, PartialEq, Eq)]
pub enum FileAct {
    Done,
    /// The words aren't two, or the first is none of the twelve.
    Usage,
    /// There are so many files whose path begins with `files/`, and not one.
    BadPayload(u32),
    DiskFault,
    SourceFault,
    SinkFault,
    Off,
    /// What is saved has no byte, or begins with one above 1.
    BadSaved,
}

impl FileAct {
    /// The status of the program.
    pub fn number(self) -> u8
        ensures { result ≡ number_of self }
    {
        match self {
            FileAct::Done => 0,
            FileAct::Usage => 1,
            FileAct::BadPayload(_) => 2,
            FileAct::DiskFault => 3,
            FileAct::SourceFault => 4,
            FileAct::SinkFault => 5,
            FileAct::Off => 6,
            FileAct::BadSaved => 7,
        }
    }
}

/// Why a word wasn't obeyed to its end.
#[derive(Clone, Copy, Debug, PartialEq, Eq)]
pub(crate) enum Stop {
    BadPayload(u32),
    DiskFault,
    SourceFault,
    Off,
    BadSaved,
}

pub(crate) fn act_of(ended: Result<(), Stop>) -> FileAct
    ensures { result ≡ act_of ended }
{
    match ended {
        Ok(()) => FileAct::Done,
        Err(Stop::BadPayload(n)) => FileAct::BadPayload(n),
        Err(Stop::DiskFault) => FileAct::DiskFault,
        Err(Stop::SourceFault) => FileAct::SourceFault,
        Err(Stop::Off) => FileAct::Off,
        Err(Stop::BadSaved) => FileAct::BadSaved,
    }
}
