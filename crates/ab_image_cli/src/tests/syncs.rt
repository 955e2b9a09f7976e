//! What is brought to the disk, and when: the module over a real disk that notes what is written and synced.

use crate::obey;
use ab_image::AbAct;
use host_edge::{Failures, Lockable};
use std::alloc::Allocator;
use std::cell::RefCell;
use std::fmt::Display;
use std::fs::{self, File, Metadata, OpenFile, OpenOptions, TryLockError};
use std::io::{self, ErrorKind, Read, Seek, SeekFrom, Write};
use std::os::unix::fs::FileExt;
use std::rt::{Clock, Files};
use std::test::Fail;
use std::time::Duration;

/// The real files, and the notes of what is done to the disk.
#[derive(Drop)]
struct Noting<'a> {
    rt: &'a HostRuntime,
    notes: &'a RefCell<String>,
}

#[derive(Drop)]
struct Noted<'a> {
    file: File,
    notes: &'a RefCell<String>,
}

fn note(notes: &RefCell<String>, what: &str) -> io::Result<()> {
    let Ok(mut notes) = notes.try_borrow_mut() else {
        return Err(io::Error::from(ErrorKind::Other));
    };
    Ok(notes.push_str(what)?)
}

/// What stands at an offset of the disk.
fn part_at(at: u64) -> &'static str {
    match at {
        0 => "choice, ",
        1_024 => "origin, ",
        2_048 | 3_072 => "record, ",
        4_096 | 8_192 => "image, ",
        _ => "elsewhere, ",
    }
}

impl FileExt for Noted<'_> {
    fn read_at(&self, into: &mut [u8], at: u64) -> io::Result<usize> {
        self.file.read_at(into, at)
    }

    fn write_at(&self, bytes: &[u8], at: u64) -> io::Result<usize> {
        note(self.notes, part_at(at))?;
        self.file.write_at(bytes, at)
    }
}

impl Lockable for Noted<'_> {
    fn try_lock(&self) -> Result<(), TryLockError> {
        self.file.try_lock()
    }
}

impl Read for Noted<'_> {
    fn read(&mut self, into: &mut [u8]) -> io::Result<usize> {
        self.file.read(into)
    }
}

impl Write for Noted<'_> {
    fn write(&mut self, bytes: &[u8]) -> io::Result<usize> {
        note(self.notes, "at the position, ")?;
        self.file.write(bytes)
    }

    fn flush(&mut self) -> io::Result<()> {
        Ok(())
    }
}

impl Seek for Noted<'_> {
    fn seek(&mut self, to: SeekFrom) -> io::Result<u64> {
        self.file.seek(to)
    }
}

impl OpenFile for Noted<'_> {
    fn metadata(&self) -> io::Result<Metadata> {
        self.file.metadata()
    }

    fn set_len(&self, size: u64) -> io::Result<()> {
        self.file.set_len(size)
    }

    fn sync_all(&self) -> io::Result<()> {
        note(self.notes, "sync, ")?;
        self.file.sync_all()
    }

    fn sync_data(&self) -> io::Result<()> {
        self.file.sync_data()
    }
}

impl<'a> Files for Noting<'a> {
    type File = Noted<'a>;

    type Dir = <HostRuntime as Files>::Dir;

    fn open_file(&self, how: &OpenOptions, path: &str) -> io::Result<Noted<'a>> {
        Ok(Noted {
            file: self.rt.open_file(how, path)?,
            notes: self.notes,
        })
    }

    fn open_dir(&self, path: &str) -> io::Result<<HostRuntime as Files>::Dir> {
        self.rt.open_dir(path)
    }

    fn metadata(&self, path: &str) -> io::Result<Metadata> {
        self.rt.metadata(path)
    }

    fn symlink_metadata(&self, path: &str) -> io::Result<Metadata> {
        self.rt.symlink_metadata(path)
    }

    fn copy(&self, from: &str, to: &str) -> io::Result<u64> {
        self.rt.copy(from, to)
    }

    fn rename(&self, from: &str, to: &str) -> io::Result<()> {
        self.rt.rename(from, to)
    }

    fn remove_file(&self, path: &str) -> io::Result<()> {
        self.rt.remove_file(path)
    }

    fn create_dir(&self, path: &str) -> io::Result<()> {
        self.rt.create_dir(path)
    }

    fn remove_dir(&self, path: &str) -> io::Result<()> {
        self.rt.remove_dir(path)
    }

    fn remove_dir_all<B: Allocator>(&self, alloc: B, path: &str) -> io::Result<()> {
        self.rt.remove_dir_all(alloc, path)
    }
}

impl Print for Noting<'_> {
    fn print<D: Display + Drop>(&self, value: D) -> io::Result<()> {
        self.rt.print(value)
    }

    fn println<D: Display + Drop>(&self, value: D) -> io::Result<()> {
        self.rt.println(value)
    }

    fn write_all(&self, bytes: &[u8]) -> io::Result<()> {
        self.rt.write_all(bytes)
    }
}

impl Clock for Noting<'_> {
    fn monotonic(&self) -> io::Result<Duration> {
        self.rt.monotonic()
    }

    fn since_1970(&self) -> io::Result<Duration> {
        self.rt.since_1970()
    }
}

/// A word, and what it does to the disk in order.
struct Row {
    word: &'static str,
    notes: &'static str,
}

const ROWS: &[Row] = &[
    Row {
        word: "Download",
        notes: "sync, sync, image, record, sync, ",
    },
    Row {
        word: "ArtifactCommit",
        notes: "sync, choice, sync, ",
    },
    Row {
        word: "ArtifactRollback",
        notes: "sync, choice, sync, ",
    },
    Row {
        word: "ArtifactCommit",
        notes: "sync, choice, sync, ",
    },
    Row {
        word: "Cleanup",
        notes: "sync, origin, sync, ",
    },
];

const TYPE_INFO: &[u8] = b"{\"type\":\"ab-image\",\"artifact_provides\":{\"rootfs-image.checksum\":\
\"ba7816bf8f01cfea414140de5dae2223b00361a396177a9cb410ff61f20015ad\"}}";

/// Whether a word is done, and what it notes.
fn ask(rt: &HostRuntime, word: &str) -> Result<(bool, String), Fail> {
    let notes = RefCell::new(String::new(rt.alloc()));
    let words = [
        String::from_str(rt.alloc(), word)?,
        String::from_str(rt.alloc(), "synced/work/0000")?,
    ];
    let noting = Noting { rt, notes: &notes };
    let mut failures = Failures::none();
    let done = match obey(noting, rt.alloc(), &words, false, &mut failures) {
        Ok(AbAct::Done) => true,
        _ => false,
    };
    Ok((done, notes.into_inner()))
}

#[test]
fn each_write_is_synced_by_one_program(rt: HostRuntime) -> Result<(), Fail> {
    fs::create_dir_all(&rt, "synced/work/0000/files")?;
    fs::create_dir_all(&rt, "synced/work/0000/header")?;
    fs::write(&rt, "synced/work/0000/header/type-info", TYPE_INFO)?;
    fs::write(&rt, "synced/work/0000/files/rootfs.img", b"abc")?;
    fs::write(&rt, "synced/blocks", &[0u8; 12_288])?;
    for row in ROWS {
        let (done, notes) = ask(&rt, row.word)?;
        assert!(rt; done, "{}", row.word);
        assert_eq!(rt; notes.as_str(), row.notes);
    }
    let other = fs::open(&rt, "synced/blocks")?;
    assert!(rt; other.try_lock().is_ok());
    let (done, _) = ask(&rt, "Cleanup")?;
    assert!(rt; !done);
    drop(other);
    rt.remove_dir_all(rt.alloc(), "synced")?;
    Ok(())
}

impl Eprint for Noting<'_> {
    fn eprint<D: Display + Drop>(&self, value: D) -> io::Result<()> {
        self.rt.eprint(value)
    }

    fn eprintln<D: Display + Drop>(&self, value: D) -> io::Result<()> {
        self.rt.eprintln(value)
    }
}
