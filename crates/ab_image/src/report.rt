//! What a call of the module answers.

ghost use Rattle.std.specs.Prelude.{◌≡◌};
ghost use Rattle.ab_image.specs.Answers.{number_of, stopped_by};

use device_model::Down;
use manifest_sums::Sum;

/// How a call ended. The program ends with the number of its variant.
#[derive(Drop)]
pub enum AbAct {
    Done,
    /// The words aren't a state or a query, and a folder.
    Usage,
    /// So many files are images, and not one.
    BadPayload(u32),
    /// The artifact lists no sum for its image.
    NoChecksum,
    /// The image has so many bytes, more than a partition.
    TooLong(u64),
    /// The sum that is listed, and the one of the image that was copied.
    Differs(Sum, Sum),
    /// The other partition doesn't hold an image with the sum that is listed.
    NotReady,
    DiskFault,
    SourceFault,
    SinkFault,
    /// Power was lost.
    Off,
    NoMemory,
}

impl AbAct {
    /// The status of the program.
    pub fn number(&self) -> u8
        ensures { result ≡ number_of self.now }
    {
        match self {
            AbAct::Done => 0,
            AbAct::Usage => 1,
            AbAct::BadPayload(_) => 2,
            AbAct::NoChecksum => 3,
            AbAct::TooLong(_) => 4,
            AbAct::Differs(_, _) => 5,
            AbAct::NotReady => 6,
            AbAct::DiskFault => 7,
            AbAct::SourceFault => 8,
            AbAct::SinkFault => 9,
            AbAct::Off => 10,
            AbAct::NoMemory => 11,
        }
    }
}

/// The answer where a call of the disk failed.
pub(crate) fn stopped(down: Down) -> AbAct
    ensures { result ≡ stopped_by down }
{
    match down {
        Down::Off => AbAct::Off,
        Down::Fault => AbAct::DiskFault,
    }
}
