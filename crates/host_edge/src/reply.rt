//! The file through which a question is answered.

use std::fs::{OpenFile, OpenOptions};
use std::io::{self, ErrorKind, Write};
use std::os::unix::fs::FileExt;
use std::process::Stdio;
use std::rt::Files;
use upd_text::Text32;

/// How many of a reply's first bytes count.
const REPLY_BYTES: usize = 32;

/// How many bytes stand in front of a reply. They and the bytes that count end within one block of any disk, so a reply needs
/// no room that isn't there.
const FILLED: usize = 4_032;

/// The bytes in front of it, which no program writes.
const FILLING: u8 = 0xff;

/// How many bytes a reply may have in its file before all but its first are let go.
const REPLY_ROOM: u64 = 65_536;

/// A file without a name, to whose end a program writes.
#[derive(Drop)]
pub struct Reply<F: Drop> {
    file: F,
}

/// Makes a file to whose end is written. What stood there is taken away, and no link is followed.
fn new_file<R: Files>(rt: &R, path: &str) -> io::Result<R::File> {
    match rt.remove_file(path) {
        Ok(()) => {}
        Err(error) if error.kind() == ErrorKind::NotFound => {}
        Err(error) => return Err(error),
    }
    OpenOptions::new()
        .read(true)
        .append(true)
        .create_new(true)
        .open(rt, path)
}

fn is_filling(bytes: &[u8]) -> bool {
    bytes.iter().all(|byte| *byte == FILLING)
}

impl<F: Drop> Reply<F> {
    /// Makes the file with the room for a reply, and takes its name away at once, so that nothing is left behind.
    pub fn made<R: Files<File = F>>(rt: &R, path: &str) -> io::Result<Reply<F>>
    where
        F: Write,
    {
        let mut file = new_file(rt, path)?;
        rt.remove_file(path)?;
        file.write_all(&[FILLING; FILLED])?;
        Ok(Reply { file })
    }
}

impl<F: OpenFile + FileExt + Drop> Reply<F> {
    /// The file as the standard output of a program.
    pub fn stream(&self) -> io::Result<Stdio>
    where
        F: Into<Stdio>,
    {
        Ok(self.file.try_clone()?.into())
    }

    /// Lets go of all but the first bytes of a reply that grew large.
    pub fn trim(&self) {
        if let Ok(kind) = self.file.metadata() {
            if kind.len() > REPLY_ROOM {
                let _ = self.file.set_len((FILLED + REPLY_BYTES) as u64);
            }
        }
    }

    /// The first bytes of the reply. They stand behind the filling, or at the front, where a program opened its output anew and
    /// so took the filling away.
    fn first_bytes(&self) -> io::Result<Text32> {
        let mut bytes = [0; REPLY_BYTES];
        let count = self.file.read_at(&mut bytes, 0)?;
        if count < REPLY_BYTES || !is_filling(&bytes) {
            return Ok(Text32::cut(&bytes[..count]));
        }
        let count = self.file.read_at(&mut bytes, FILLED as u64)?;
        Ok(Text32::cut(&bytes[..count]))
    }

    /// The first bytes of the reply. It is an error where they can't be read, or where a short reply may lack bytes that the
    /// program couldn't write: it is then tried whether so many could be written.
    pub fn text(&mut self) -> io::Result<Text32>
    where
        F: Write,
    {
        let text = self.first_bytes()?;
        if text.bytes().len() < REPLY_BYTES {
            self.file.write_all(&[FILLING; REPLY_BYTES])?;
        }
        Ok(text)
    }
}
