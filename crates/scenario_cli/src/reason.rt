//! Why a line of a file can't be played.

use std::alloc::{AllocError, AllocFailed};
use upd_text::NoMemory;

/// What is wrong with a line.
#[derive(Clone, Copy, Debug, PartialEq, Eq)]
pub enum Reason {
    /// It begins with no word of the format.
    Word,
    /// It sets something up, or asks for something, in front of the first row.
    NoRow,
    /// It begins a row that makes no boot, or plays boots anew where there is none.
    NoBoot,
    /// It needs another number of numbers, or one of them is none or is out of its range.
    Number,
    /// A tear is `old`, `new` or a byte.
    Tear,
    /// A loss comes `before` a call or `after` it.
    Moment,
    /// A backslash has no `n`, and no byte, behind it.
    Bytes,
    /// A device's type is a name.
    Name,
    /// A script of the device has the name of a script, once, and there are at most 64.
    Script,
    /// A path is a name, and under `odd` it is none.
    Path,
    /// A file has a million bytes or more.
    Large,
    /// Bytes stand behind the end of the area.
    Area,
}

impl Reason {
    /// The reason as a user reads it.
    pub fn text(self) -> &'static str {
        match self {
            Reason::Word => "no line begins with this word",
            Reason::NoRow => "this stands in front of the first row",
            Reason::NoBoot => "this row makes no boot",
            Reason::Number => "a number is wanting, is none or is out of its range",
            Reason::Tear => "a tear is old, new or a byte of two digits of base 16",
            Reason::Moment => "a loss is CALL before TEAR, or CALL after TEAR",
            Reason::Bytes => "behind \\ stands n, or a byte of two digits of base 16",
            Reason::Name => "a type has 1 to 128 bytes, and no control byte",
            Reason::Script => "this is no script's name, or one too many",
            Reason::Path =>
                "a path has 1 to 128 bytes, and no control byte; odd begins the line of one that hasn't",
            Reason::Large => "a file has fewer than 1000000 bytes",
            Reason::Area => "the area has 266240 bytes",
        }
    }
}

/// Why a line was not done.
#[derive(Clone, Copy, Debug, PartialEq, Eq)]
pub enum Stop {
    NoMemory,
    Wrong(Reason),
}

impl From<NoMemory> for Stop {
    fn from(_e: NoMemory) -> Stop {
        Stop::NoMemory
    }
}

impl From<AllocError> for Stop {
    fn from(_e: AllocError) -> Stop {
        Stop::NoMemory
    }
}

impl<T: Drop> From<AllocFailed<T>> for Stop {
    fn from(_e: AllocFailed<T>) -> Stop {
        Stop::NoMemory
    }
}

impl From<Reason> for Stop {
    fn from(reason: Reason) -> Stop {
        Stop::Wrong(reason)
    }
}

/// Why no more of a file is played: the number of the wrong line, from 1, and what is wrong with it, or want of memory.
#[derive(Clone, Copy, Debug, PartialEq, Eq)]
pub enum Stopped {
    NoMemory,
    Wrong(usize, Reason),
}

impl From<AllocError> for Stopped {
    fn from(_e: AllocError) -> Stopped {
        Stopped::NoMemory
    }
}

impl From<NoMemory> for Stopped {
    fn from(_e: NoMemory) -> Stopped {
        Stopped::NoMemory
    }
}

impl<T: Drop> From<AllocFailed<T>> for Stopped {
    fn from(_e: AllocFailed<T>) -> Stopped {
        Stopped::NoMemory
    }
}

impl Stop {
    /// The same, of the line with this number.
    pub fn at(self, line: usize) -> Stopped {
        match self {
            Stop::NoMemory => Stopped::NoMemory,
            Stop::Wrong(reason) => Stopped::Wrong(line, reason),
        }
    }
}
