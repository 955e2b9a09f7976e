//! What a call of `make` answers.

ghost use Rattle.std.specs.Prelude.{◌≡◌};
ghost use Rattle.tree_writer.specs.Made.{made_number, made_of};

use crate::early::Early;
use crate::fault::WriteFault;

/// What was made, or why nothing was.
#[derive(Drop)]
pub enum Made {
    /// All files of the tree were added.
    Made,
    /// The words and the files give no tree, for this cause. It is never want of memory.
    Fault(WriteFault),
    /// There are so many words, fewer than 4; or the word of this index isn't of its kind, or repeats
    /// a key. 2^32 - 1 stands for all greater numbers.
    Usage(u32),
    /// The files have this many bytes together, more than 268,435,456. 2^64 - 1 stands for all greater
    /// numbers.
    TooLong(u64),
    /// A call of the source failed.
    SourceFault,
    /// A call of the tree's sink failed. The first files of the tree were added; the next one may be
    /// there in any form.
    TreeFault,
    /// Memory was refused. No file was added.
    NoMemory,
}

impl Made {
    /// The number of the answer, with which the program ends.
    pub fn number(&self) -> u8
        ensures { result ≡ made_number self.now }
    {
        match self {
            Made::Made => 0,
            Made::Fault(_) => 1,
            Made::Usage(_) => 2,
            Made::TooLong(_) => 3,
            Made::SourceFault => 4,
            Made::TreeFault => 5,
            Made::NoMemory => 6,
        }
    }
}

/// The answer of what came early.
pub(crate) fn made_of(early: Early) -> Made
    ensures { result ≡ made_of early }
{
    match early {
        Early::TooLong(size) => Made::TooLong(size),
        Early::SourceFault => Made::SourceFault,
        Early::NoMemory => Made::NoMemory,
    }
}
