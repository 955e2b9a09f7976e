//! The files of a place.

ghost use Rattle.std.specs.Prelude.{◌≡◌, length};

use file_module::Slot;
use host_edge::{Failure, Lockable, hold, named};
use std::alloc::{AllocError, Global};
use std::fs::{self, Metadata, OpenFile, OpenOptions, Permissions};
use std::io::{self, ErrorKind, Write};
use std::os::unix::fs::{FileExt, MetadataExt, OpenOptionsExt, PermissionsExt};
use std::rt::{Clock, Files};

/// The mode of a target where none was before.
const NEW_MODE: u32 = 0o644;

/// The mode of a fresh file until it is whole.
const FRESH_MODE: u32 = 0o600;

/// All bits of a mode.
const MODE_BITS: u32 = 0o7777;

/// Those of them that a file of another owner may have too: all but set-user-ID, set-group-ID and sticky.
const PLAIN_BITS: u32 = 0o777;

/// Three files in the folder `root`, two folders above a work folder.
#[derive(Drop)]
pub struct Kept<R: Files + Drop> {
    rt: R,
    alloc: Global,
    root: String,
    target: String,
    saved: String,
    fresh: String,
    /// The folder, held for this program alone. What an earlier call left in it is on the disk once it is open.
    folder: Option<R::File>,
    /// The fresh file, while it is written.
    writing: Option<R::File>,
    /// The target, while it is read. What it holds is on the disk.
    target_read: Option<R::File>,
    /// What is saved, while it is read.
    saved_read: Option<R::File>,
}

fn below(alloc: Global, folder: &str, name: &str) -> Result<String, AllocError> {
    format!(in alloc; "{folder}/../../root{name}")
}

/// Opens the folder for this program alone, and brings to the disk what a program left there that was killed.
fn open_folder<R: Files + Clock>(rt: &R, path: &str) -> io::Result<R::File>
where
    R::File: Lockable,
{
    if !rt.metadata(path)?.is_dir() {
        return Err(io::Error::from(ErrorKind::NotADirectory));
    }
    let folder = fs::open(rt, path)?;
    hold(rt, &folder)?;
    folder.sync_all()?;
    Ok(folder)
}

/// What stands at a path, where that is a regular file or nothing. Anything else is an error.
fn found<R: Files>(rt: &R, path: &str) -> io::Result<Option<Metadata>> {
    match rt.symlink_metadata(path) {
        Ok(kind) if kind.is_file() => Ok(Some(kind)),
        Ok(_) => Err(io::Error::new(ErrorKind::InvalidInput, "it isn't a regular file")),
        Err(error) if error.kind() == ErrorKind::NotFound => Ok(None),
        Err(error) => Err(error),
    }
}

/// Opens a file, and brings its bytes to the disk.
fn open_synced<R: Files>(rt: &R, path: &str) -> io::Result<R::File> {
    let file = fs::open(rt, path)?;
    file.sync_all()?;
    Ok(file)
}

/// Removes a file, where one is there.
fn take_away<R: Files>(rt: &R, path: &str) -> io::Result<()> {
    match found(rt, path)? {
        Some(_) => rt.remove_file(path),
        None => Ok(()),
    }
}

/// Makes a file that nobody else can read yet, in place of one that is there.
fn make<R: Files>(rt: &R, path: &str) -> io::Result<R::File> {
    take_away(rt, path)?;
    OpenOptions::new()
        .write(true)
        .create_new(true)
        .mode(FRESH_MODE)
        .open(rt, path)
}

/// Gives a file the owner and the group of another one, and says which mode it may have: that one's, or where the system denies
/// it the owner, no more than the plain bits of it.
fn give_owner<R: Files>(rt: &R, path: &str, other: &Metadata) -> io::Result<u32> {
    let mode = other.permissions().mode() & MODE_BITS;
    match rt.lchown(path, Some(other.uid()), Some(other.gid())) {
        Ok(()) => Ok(mode),
        Err(error) => match error.kind() {
            ErrorKind::PermissionDenied | ErrorKind::InvalidInput | ErrorKind::Unsupported => {
                Ok(mode & PLAIN_BITS)
            }
            _ => Err(error),
        },
    }
}

/// The mode of a file that is to be in a slot in place of another one. A target gets that one's owner before its mode, since a new
/// owner takes bits away; what is saved stays with who runs this, so that no owner can change what a rollback gives.
fn mode_for<R: Files>(rt: &R, path: &str, slot: Slot, other: &Metadata) -> io::Result<u32> {
    match slot {
        Slot::Target => give_owner(rt, path, other),
        _ => Ok(other.permissions().mode() & PLAIN_BITS),
    }
}

/// Gives a file a mode, and brings it to the disk.
fn set_mode<F: OpenFile>(file: &F, mode: u32) -> io::Result<()> {
    file.set_permissions(Permissions::from_mode(mode))?;
    file.sync_all()
}

/// Gives a file another name, where a file or nothing stands.
fn rename<R: Files>(rt: &R, from: &str, to: &str) -> io::Result<()> {
    let _found = found(rt, to)?;
    rt.rename(from, to)
}

impl<R: Files + Clock + Drop> Kept<R>
where
    R::File: FileExt + Lockable,
{
    /// The files above a work folder.
    pub fn above(rt: R, alloc: Global, folder: &str) -> Result<Kept<R>, AllocError> {
        Ok(Kept {
            rt,
            alloc,
            root: below(alloc, folder, "")?,
            target: below(alloc, folder, "/target")?,
            saved: below(alloc, folder, "/target.saved")?,
            fresh: below(alloc, folder, "/target.fresh")?,
            folder: None,
            writing: None,
            target_read: None,
            saved_read: None,
        })
    }

    fn path(&self, slot: Slot) -> &str {
        match slot {
            Slot::Target => self.target.as_str(),
            Slot::Saved => self.saved.as_str(),
            Slot::Fresh => self.fresh.as_str(),
        }
    }

    fn close_all(&mut self) {
        self.writing = None;
        self.target_read = None;
        self.saved_read = None;
    }

    /// Before the first look at the folder, opens it.
    fn look(&mut self) -> Result<(), Failure> {
        if self.folder.is_none() {
            let opened = open_folder(&self.rt, self.root.as_str());
            self.folder = Some(named(self.alloc, self.root.as_str(), opened)?);
        }
        Ok(())
    }

    /// Brings the names in the folder to the disk.
    fn sync_names(&self) -> Result<(), Failure> {
        let done = match &self.folder {
            Some(folder) => folder.sync_all(),
            None => Err(io::Error::from(ErrorKind::InvalidInput)),
        };
        named(self.alloc, self.root.as_str(), done)
    }

    fn find(&self, slot: Slot) -> Result<Option<Metadata>, Failure> {
        let found = found(&self.rt, self.path(slot));
        named(self.alloc, self.path(slot), found)
    }

    /// Opens the target. Others may have written it and brought nothing to the disk, and a rollback may leave it as it stands.
    fn open_target(&mut self) -> Result<(), Failure> {
        if self.target_read.is_none() {
            let opened = open_synced(&self.rt, self.target.as_str());
            self.target_read = Some(named(self.alloc, self.target.as_str(), opened)?);
        }
        Ok(())
    }

    /// How many bytes a file has, or none where it isn't there. Anything but a regular file is an error.
    pub fn length(&mut self, slot: Slot) -> Result<Option<u64>, Failure> {
        self.look()?;
        let Some(found) = self.find(slot)? else {
            return Ok(None);
        };
        if slot == Slot::Target {
            self.open_target()?;
        }
        Ok(Some(found.len()))
    }

    /// A file that is open to be read, or opens it. It is put back behind the read.
    fn take_open(&mut self, slot: Slot) -> io::Result<R::File> {
        let open = match slot {
            Slot::Target => self.target_read.take(),
            Slot::Saved => self.saved_read.take(),
            Slot::Fresh => None,
        };
        match open {
            Some(file) => Ok(file),
            None => fs::open(&self.rt, self.path(slot)),
        }
    }

    fn put_open(&mut self, slot: Slot, file: R::File) {
        match slot {
            Slot::Target => self.target_read = Some(file),
            Slot::Saved => self.saved_read = Some(file),
            Slot::Fresh => {}
        }
    }

    /// Reads the bytes of a file from an offset on. The file stays open for the next read.
    pub fn read(&mut self, slot: Slot, at: u64, into: &mut [u8]) -> Result<(), Failure>
        ensures { length into.new ≡ length into.old }
    {
        let opened = self.take_open(slot);
        let file = named(self.alloc, self.path(slot), opened)?;
        let done = file.read_exact_at(into, at);
        self.put_open(slot, file);
        named(self.alloc, self.path(slot), done)
    }

    /// The target, or where there is none what is saved of it, whose owner and mode a new file gets.
    fn model(&self) -> Result<Option<Metadata>, Failure> {
        match self.find(Slot::Target)? {
            Some(target) => Ok(Some(target)),
            None => self.find(Slot::Saved),
        }
    }

    /// Makes the fresh file anew, without bytes.
    pub fn start(&mut self) -> Result<(), Failure> {
        self.look()?;
        self.writing = None;
        let made = make(&self.rt, self.fresh.as_str());
        self.writing = Some(named(self.alloc, self.fresh.as_str(), made)?);
        Ok(())
    }

    /// Adds bytes to the fresh file, which was begun.
    pub fn append(&mut self, bytes: &[u8]) -> Result<(), Failure> {
        let done = match self.writing.as_mut() {
            Some(file) => file.write_all(bytes),
            None => Err(io::Error::from(ErrorKind::InvalidInput)),
        };
        named(self.alloc, self.fresh.as_str(), done)
    }

    /// Brings the fresh file and its name to the disk.
    pub fn settle(&mut self) -> Result<(), Failure> {
        let done = match &self.writing {
            Some(file) => file.sync_all(),
            None => Err(io::Error::from(ErrorKind::InvalidInput)),
        };
        named(self.alloc, self.fresh.as_str(), done)?;
        self.sync_names()
    }

    /// Gives the fresh file the owner and the mode that it has in a slot, and brings them to the disk.
    fn finish(&mut self, slot: Slot) -> Result<(), Failure> {
        let mode = match self.model()? {
            Some(model) => {
                let mode = mode_for(&self.rt, self.fresh.as_str(), slot, &model);
                named(self.alloc, self.fresh.as_str(), mode)?
            }
            None => NEW_MODE,
        };
        let done = match self.writing.take() {
            Some(file) => set_mode(&file, mode),
            None => Err(io::Error::from(ErrorKind::InvalidInput)),
        };
        named(self.alloc, self.fresh.as_str(), done)
    }

    /// Gives the fresh file another name, and brings that to the disk.
    pub fn move_to(&mut self, slot: Slot) -> Result<(), Failure> {
        self.finish(slot)?;
        self.close_all();
        let done = rename(&self.rt, self.fresh.as_str(), self.path(slot));
        named(self.alloc, self.path(slot), done)?;
        self.sync_names()
    }

    /// Takes a file away, and brings that to the disk, also where an earlier call took it away.
    pub fn remove(&mut self, slot: Slot) -> Result<(), Failure> {
        self.look()?;
        self.close_all();
        let done = take_away(&self.rt, self.path(slot));
        named(self.alloc, self.path(slot), done)?;
        self.sync_names()
    }
}
