//! The real files, which note what becomes of them.

use host_edge::Lockable;
use std::alloc::Allocator;
use std::cell::RefCell;
use std::fmt::Display;
use std::fs::{File, Metadata, OpenFile, OpenOptions, Permissions, TryLockError};
use std::io::{self, ErrorKind, Read, Seek, SeekFrom, Write};
use std::os::unix::fs::FileExt;
use std::rt::{Clock, Files};
use std::time::Duration;

/// The real files, and the notes of all that changes them. It waits for nothing.
#[derive(Drop)]
pub struct Noting<'a> {
    pub rt: &'a HostRuntime,
    pub notes: &'a RefCell<String>,
    /// Whether a file may get another owner.
    pub owns: bool,
}

/// An open file that is noted by the end of its path.
#[derive(Drop)]
pub struct Noted<'a> {
    file: File,
    name: &'static str,
    notes: &'a RefCell<String>,
}

/// The end of a path, by which it is noted.
fn name_of(path: &str) -> &'static str {
    for name in ["root", "target", "saved", "fresh"] {
        if path.ends_with(name) {
            return name;
        }
    }
    "other"
}

fn note(notes: &RefCell<String>, what: &str, name: &str) -> io::Result<()> {
    let Ok(mut notes) = notes.try_borrow_mut() else {
        return Err(io::Error::from(ErrorKind::Other));
    };
    notes.push_str(what)?;
    notes.push_str(name)?;
    Ok(notes.push_str(", ")?)
}

impl Read for Noted<'_> {
    fn read(&mut self, into: &mut [u8]) -> io::Result<usize> {
        self.file.read(into)
    }
}

impl Write for Noted<'_> {
    fn write(&mut self, bytes: &[u8]) -> io::Result<usize> {
        note(self.notes, "write ", self.name)?;
        self.file.write(bytes)
    }

    fn flush(&mut self) -> io::Result<()> {
        Ok(())
    }
}

impl Seek for Noted<'_> {
    fn seek(&mut self, to: SeekFrom) -> io::Result<u64> {
        self.file.seek(to)
    }
}

impl OpenFile for Noted<'_> {
    fn metadata(&self) -> io::Result<Metadata> {
        self.file.metadata()
    }

    fn set_len(&self, size: u64) -> io::Result<()> {
        self.file.set_len(size)
    }

    fn sync_all(&self) -> io::Result<()> {
        note(self.notes, "sync ", self.name)?;
        self.file.sync_all()
    }

    fn sync_data(&self) -> io::Result<()> {
        self.file.sync_data()
    }

    fn set_permissions(&self, permissions: Permissions) -> io::Result<()> {
        note(self.notes, "set ", self.name)?;
        self.file.set_permissions(permissions)
    }
}

impl FileExt for Noted<'_> {
    fn read_at(&self, into: &mut [u8], at: u64) -> io::Result<usize> {
        self.file.read_at(into, at)
    }

    fn write_at(&self, bytes: &[u8], at: u64) -> io::Result<usize> {
        note(self.notes, "write ", self.name)?;
        self.file.write_at(bytes, at)
    }
}

impl Lockable for Noted<'_> {
    fn try_lock(&self) -> Result<(), TryLockError> {
        self.file.try_lock()
    }
}

impl<'a> Files for Noting<'a> {
    type File = Noted<'a>;

    type Dir = <HostRuntime as Files>::Dir;

    fn open_file(&self, how: &OpenOptions, path: &str) -> io::Result<Noted<'a>> {
        let file = self.rt.open_file(how, path)?;
        let name = name_of(path);
        if how.asks_create_new() {
            note(self.notes, "make ", name)?;
        }
        Ok(Noted {
            file,
            name,
            notes: self.notes,
        })
    }

    fn open_dir(&self, path: &str) -> io::Result<<HostRuntime as Files>::Dir> {
        self.rt.open_dir(path)
    }

    fn metadata(&self, path: &str) -> io::Result<Metadata> {
        self.rt.metadata(path)
    }

    fn symlink_metadata(&self, path: &str) -> io::Result<Metadata> {
        self.rt.symlink_metadata(path)
    }

    fn copy(&self, from: &str, to: &str) -> io::Result<u64> {
        self.rt.copy(from, to)
    }

    fn rename(&self, from: &str, to: &str) -> io::Result<()> {
        note(self.notes, "move to ", name_of(to))?;
        self.rt.rename(from, to)
    }

    fn remove_file(&self, path: &str) -> io::Result<()> {
        self.rt.remove_file(path)?;
        note(self.notes, "remove ", name_of(path))
    }

    fn lchown(&self, path: &str, owner: Option<u32>, group: Option<u32>) -> io::Result<()> {
        note(self.notes, "own ", name_of(path))?;
        if self.owns {
            self.rt.lchown(path, owner, group)
        } else {
            Err(io::Error::from(ErrorKind::PermissionDenied))
        }
    }

    fn create_dir(&self, path: &str) -> io::Result<()> {
        self.rt.create_dir(path)
    }

    fn remove_dir(&self, path: &str) -> io::Result<()> {
        self.rt.remove_dir(path)
    }

    fn remove_dir_all<B: Allocator>(&self, alloc: B, path: &str) -> io::Result<()> {
        self.rt.remove_dir_all(alloc, path)
    }
}

impl Print for Noting<'_> {
    fn print<D: Display + Drop>(&self, value: D) -> io::Result<()> {
        self.rt.print(value)
    }

    fn println<D: Display + Drop>(&self, value: D) -> io::Result<()> {
        self.rt.println(value)
    }

    fn write_all(&self, bytes: &[u8]) -> io::Result<()> {
        self.rt.write_all(bytes)
    }
}

impl Clock for Noting<'_> {
    fn monotonic(&self) -> io::Result<Duration> {
        self.rt.monotonic()
    }

    fn since_1970(&self) -> io::Result<Duration> {
        self.rt.since_1970()
    }
}

impl Eprint for Noting<'_> {
    fn eprint<D: Display + Drop>(&self, value: D) -> io::Result<()> {
        self.rt.eprint(value)
    }

    fn eprintln<D: Display + Drop>(&self, value: D) -> io::Result<()> {
        self.rt.eprintln(value)
    }
}
