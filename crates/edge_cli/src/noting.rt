//! A runtime over the real one that notes what is made, written and synced, in the file `log` of the folder in which it is used.

use host_edge::Lockable;
use std::alloc::{Allocator, Global};
use std::cell::Cell;
use std::fs::{File, Files, Metadata, OpenFile, OpenOptions, Permissions, TryLockError};
use std::io::{self, ErrorKind, Read, Seek, SeekFrom, Write};
use std::os::unix::fs::FileExt;
use std::path::PathBuf;
use std::process::{Child, Command, Processes, Stdio};
use std::rt::Clock;
use std::time::Duration;

/// What the system says of a program. The file `status` stands for it.
const STATUS: &str = "/proc/self/status";

/// Notes go to the file `log`, a line each. A program without a path is looked for in `bin` first.
#[derive(Drop)]
pub struct Noting<'a> {
    pub rt: &'a HostRuntime,
    /// How often the file of a reply may be written, and whether it can be read.
    pub replies: Cell<u32>,
    pub reads: Cell<bool>,
}

/// Adds a line of two words.
fn add_line(mut log: &File, word: &str, path: &str) -> io::Result<()> {
    log.write_all(word.as_bytes())?;
    log.write_all(path.as_bytes())?;
    log.write_all(b"\n")
}

fn open_log(rt: &HostRuntime) -> io::Result<File> {
    OpenOptions::new().append(true).create(true).open(rt, "log")
}

/// A file that notes.
#[derive(Drop)]
pub struct NotedFile {
    alloc: Global,
    file: File,
    log: File,
    path: String,
    writes: u32,
    reads: bool,
}

impl<'a> Noting<'a> {
    pub fn new(rt: &'a HostRuntime) -> Noting<'a> {
        Noting {
            rt,
            replies: Cell::new(u32::MAX),
            reads: Cell::new(true),
        }
    }
}

impl Files for Noting<'_> {
    type File = NotedFile;

    type Dir = <HostRuntime as Files>::Dir;

    fn open_file(&self, how: &OpenOptions, path: &str) -> io::Result<NotedFile> {
        let found = if path == STATUS { "status" } else { path };
        let is_reply = path.ends_with("/reply");
        Ok(NotedFile {
            alloc: self.rt.alloc(),
            file: self.rt.open_file(how, found)?,
            log: open_log(self.rt)?,
            path: String::from_str(self.rt.alloc(), path)?,
            writes: if is_reply {
                self.replies.get()
            } else {
                u32::MAX
            },
            reads: self.reads.get() || !is_reply,
        })
    }

    fn open_dir(&self, path: &str) -> io::Result<Self::Dir> {
        self.rt.open_dir(path)
    }

    fn metadata(&self, path: &str) -> io::Result<Metadata> {
        self.rt
            .metadata(if path == STATUS { "status" } else { path })
    }

    fn symlink_metadata(&self, path: &str) -> io::Result<Metadata> {
        self.rt.symlink_metadata(path)
    }

    fn copy(&self, from: &str, to: &str) -> io::Result<u64> {
        self.rt.copy(from, to)
    }

    fn rename(&self, from: &str, to: &str) -> io::Result<()> {
        self.rt.rename(from, to)
    }

    fn remove_file(&self, path: &str) -> io::Result<()> {
        self.rt.remove_file(path)
    }

    fn create_dir(&self, path: &str) -> io::Result<()> {
        add_line(&open_log(self.rt)?, "make ", path)?;
        self.rt.create_dir(path)
    }

    fn remove_dir(&self, path: &str) -> io::Result<()> {
        self.rt.remove_dir(path)
    }

    fn remove_dir_all<B: Allocator>(&self, alloc: B, path: &str) -> io::Result<()> {
        self.rt.remove_dir_all(alloc, path)
    }

    fn canonicalize<B: Allocator>(&self, alloc: B, path: &str) -> io::Result<PathBuf<B>> {
        self.rt.canonicalize(alloc, path)
    }

    fn set_permissions(&self, path: &str, perm: Permissions) -> io::Result<()> {
        self.rt.set_permissions(path, perm)
    }
}

impl Read for NotedFile {
    fn read(&mut self, buf: &mut [u8]) -> io::Result<usize> {
        self.file.read(buf)
    }
}

impl Write for NotedFile {
    fn write(&mut self, buf: &[u8]) -> io::Result<usize> {
        if self.writes == 0 {
            return Err(io::Error::from(ErrorKind::StorageFull));
        }
        self.writes -= 1;
        add_line(&self.log, "write ", self.path.as_str())?;
        self.file.write(buf)
    }

    fn flush(&mut self) -> io::Result<()> {
        Ok(())
    }
}

impl Seek for NotedFile {
    fn seek(&mut self, to: SeekFrom) -> io::Result<u64> {
        self.file.seek(to)
    }
}

impl OpenFile for NotedFile {
    fn metadata(&self) -> io::Result<Metadata> {
        self.file.metadata()
    }

    fn set_len(&self, size: u64) -> io::Result<()> {
        self.file.set_len(size)
    }

    fn sync_all(&self) -> io::Result<()> {
        add_line(&self.log, "sync ", self.path.as_str())?;
        self.file.sync_all()
    }

    fn sync_data(&self) -> io::Result<()> {
        add_line(&self.log, "sync ", self.path.as_str())?;
        self.file.sync_data()
    }

    fn try_clone(&self) -> io::Result<NotedFile> {
        Ok(NotedFile {
            alloc: self.alloc,
            file: self.file.try_clone()?,
            log: self.log.try_clone()?,
            path: String::from_str(self.alloc, self.path.as_str())?,
            writes: self.writes,
            reads: self.reads,
        })
    }
}

impl FileExt for NotedFile {
    fn read_at(&self, buf: &mut [u8], offset: u64) -> io::Result<usize> {
        if self.reads {
            self.file.read_at(buf, offset)
        } else {
            Err(io::Error::from(ErrorKind::Other))
        }
    }

    fn write_at(&self, buf: &[u8], offset: u64) -> io::Result<usize> {
        add_line(&self.log, "write ", self.path.as_str())?;
        self.file.write_at(buf, offset)
    }
}

impl Lockable for NotedFile {
    fn try_lock(&self) -> Result<(), TryLockError> {
        self.file.try_lock()
    }
}

impl From<NotedFile> for Stdio {
    fn from(noted: NotedFile) -> Stdio {
        Stdio::from(noted.file)
    }
}

impl Processes for Noting<'_> {
    type Started = <HostRuntime as Processes>::Started;

    fn spawn<B: Allocator + Clone>(
        &self,
        command: &Command<B>,
        stdin: &Stdio,
        stdout: &Stdio,
        stderr: &Stdio,
    ) -> io::Result<Child<Self::Started>> {
        let mut other = Command::new(self.rt.alloc(), command.get_program())?;
        for arg in command.get_args() {
            other.arg(arg)?;
        }
        if let Some(dir) = command.get_current_dir() {
            other.current_dir(dir)?;
        }
        let folder = std::env::current_dir(self.rt)?;
        let Some(folder) = folder.to_str() else {
            return Err(io::Error::from(ErrorKind::InvalidFilename));
        };
        let path = format!(in self.rt.alloc(); "{folder}/bin:/usr/bin:/bin")?;
        other.env("PATH", path.as_str())?;
        self.rt.spawn(&other, stdin, stdout, stderr)
    }
}

impl Clock for Noting<'_> {
    fn monotonic(&self) -> io::Result<Duration> {
        self.rt.monotonic()
    }

    fn since_1970(&self) -> io::Result<Duration> {
        self.rt.since_1970()
    }

    fn sleep(&self, duration: Duration) {
        self.rt.sleep(duration);
    }
}
