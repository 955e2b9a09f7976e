//! A file that one program holds.

use std::fs::{File, TryLockError};
use std::io::{self, ErrorKind};
use std::rt::Clock;
use std::thread;
use std::time::Duration;

/// How often a file that another program holds is tried, and how many milliseconds apart: two seconds in all.
const TRIES: u32 = 40;

const BETWEEN_MILLIS: u64 = 50;

/// A file that one program may hold at a time.
pub trait Lockable {
    /// Holds the file, where no other program does.
    fn try_lock(&self) -> Result<(), TryLockError>;
}

impl Lockable for File {
    fn try_lock(&self) -> Result<(), TryLockError> {
        File::try_lock(self)
    }
}

/// Holds the file for this program alone. Where another one holds it, it is tried again for two seconds.
pub fn hold<R: Clock, F: Lockable>(rt: &R, file: &F) -> io::Result<()> {
    for _ in 0..TRIES {
        match file.try_lock() {
            Ok(()) => return Ok(()),
            Err(TryLockError::WouldBlock) => thread::sleep(
                rt,
                Duration::from_millis(BETWEEN_MILLIS),
            ),
            Err(TryLockError::Error(error)) => return Err(error),
        }
    }
    Err(io::Error::new(ErrorKind::WouldBlock, "another program holds it"))
}
