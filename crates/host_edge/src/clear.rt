//! How the work folder is cleared.

use crate::failure::{Failure, named};
use crate::files::{joined, names_in};
use crate::paths::Paths;
use std::alloc::Global;
use std::fs::{Metadata, Permissions};
use std::io::{self, ErrorKind};
use std::os::unix::fs::{MetadataExt, PermissionsExt};
use std::rt::Files;

/// The folders that a module finds in its own.
const TREE_FOLDERS: [&str; 3] = ["files", "header", "tmp"];

/// The rights of an owner who may do all.
const OWNER: u32 = 0o700;

/// The bits of a mode that are rights.
const RIGHTS: u32 = 0o7777;

/// A work folder that is cleared.
#[derive(Drop)]
struct Clearing<'a, R: Files> {
    rt: &'a R,
    alloc: Global,
    /// The work folder.
    work: &'a str,
    /// What stands there. A folder that is kept has its owner and its rights.
    like: Metadata,
    /// The number of the next folder that is brought up.
    next: u32,
}

/// Takes away all that the work folder holds but the empty folders of its parts, and makes those that are missing. It follows no
/// link below the work folder.
pub fn clear<R: Files>(rt: &R, alloc: Global, paths: &Paths) -> Result<(), Failure> {
    let work = paths.work.as_str();
    let like = match usable(rt, work) {
        Some(like) => like,
        None => work_anew(rt, alloc, work)?,
    };
    let mut clearing = Clearing {
        rt,
        alloc,
        work,
        like,
        next: 0,
    };
    clearing.keep(work, paths.parts.as_slice())?;
    for tree in paths.trees() {
        clearing.clear_tree(tree.as_str())?;
    }
    clearing.keep(paths.work_scripts.as_str(), &[])
}

/// What stands at `work`, where that is a folder, or a link to one, in which this program may do all.
fn usable<R: Files>(rt: &R, work: &str) -> Option<Metadata> {
    match rt.metadata(work) {
        Ok(kind) if kind.is_dir() && kind.mode() & OWNER == OWNER => Some(kind),
        _ => None,
    }
}

/// Makes the work folder, in the place of what stands there.
fn work_anew<R: Files>(rt: &R, alloc: Global, work: &str) -> Result<Metadata, Failure> {
    match rt.symlink_metadata(work) {
        Ok(kind) if kind.is_dir() => {
            named(alloc, work, unlocked(rt, work, &kind))?;
            let mut clearing = Clearing {
                rt,
                alloc,
                work,
                like: kind,
                next: 0,
            };
            clearing.keep(work, &[])?;
            named(alloc, work, rt.remove_dir(work))?;
        }
        Ok(_) => named(alloc, work, rt.remove_file(work))?,
        Err(error) if error.kind() == ErrorKind::NotFound => {}
        Err(error) => return Err(Failure::at(alloc, work, error)),
    }
    named(alloc, work, rt.create_dir(work))?;
    named(alloc, work, rt.metadata(work))
}

/// Gives the owner all rights on a folder, where that is needed.
fn unlocked<R: Files>(rt: &R, path: &str, kind: &Metadata) -> io::Result<()> {
    if kind.mode() & OWNER == OWNER {
        Ok(())
    } else {
        rt.set_permissions(path, Permissions::from_mode(OWNER))
    }
}

fn is_among(path: &str, paths: &[String]) -> bool {
    paths.iter().any(|known| known.as_str() == path)
}

/// Whether something stands where a folder was to be brought.
fn is_taken(error: &io::Error) -> bool {
    matches!(
        error.kind(),
        ErrorKind::AlreadyExists | ErrorKind::DirectoryNotEmpty | ErrorKind::NotADirectory
    )
}

impl<R: Files> Clearing<'_, R> {
    fn clear_tree(&mut self, tree: &str) -> Result<(), Failure> {
        let mut folders = Vec::new(self.alloc);
        for name in TREE_FOLDERS {
            folders.push(joined(self.alloc, tree, name)?)?;
        }
        self.keep(tree, folders.as_slice())?;
        for folder in folders.as_slice() {
            self.keep(folder.as_str(), &[])?;
        }
        Ok(())
    }

    /// Takes away all in a folder but these folders, and makes those of them that are missing.
    fn keep(&mut self, folder: &str, kept: &[String]) -> Result<(), Failure> {
        if !self.take_others(folder, kept)? {
            self.make_anew(folder)?;
        }
        for path in kept {
            self.stand(path.as_str())?;
        }
        Ok(())
    }

    /// Makes a folder that holds a name which can't be told to the system in its place.
    fn make_anew(&mut self, folder: &str) -> Result<(), Failure> {
        let gone = self.rt.remove_dir_all(self.alloc, folder);
        named(self.alloc, folder, gone)?;
        named(self.alloc, folder, self.rt.create_dir(folder))
    }

    /// Makes a folder where none stands, or one that isn't as the work folder is.
    fn stand(&mut self, path: &str) -> Result<(), Failure> {
        match self.rt.symlink_metadata(path) {
            Ok(kind) if self.is_alike(&kind) => return Ok(()),
            Ok(kind) => self.take_away(path, &kind)?,
            Err(error) if error.kind() == ErrorKind::NotFound => {}
            Err(error) => return Err(Failure::at(self.alloc, path, error)),
        }
        named(self.alloc, path, self.rt.create_dir(path))
    }

    /// Whether it is a folder with the owner and the rights of the work folder.
    fn is_alike(&self, kind: &Metadata) -> bool {
        let like = &self.like;
        kind.is_dir()
            && kind.mode() & RIGHTS == like.mode() & RIGHTS
            && kind.uid() == like.uid()
            && kind.gid() == like.gid()
    }

    /// Takes away all in a folder but these paths, and says whether it could: a name that isn't text can't be told to the system.
    fn take_others(&mut self, folder: &str, kept: &[String]) -> Result<bool, Failure> {
        // the work folder may be a link, which is followed with a slash behind it
        let inside = joined(self.alloc, folder, "")?;
        let names = names_in(self.rt, self.alloc, inside.as_str());
        let mut all_text = true;
        for name in named(self.alloc, folder, names)? {
            let Ok(name) = std::str::from_utf8(name.as_slice()) else {
                all_text = false;
                continue;
            };
            let path = joined(self.alloc, folder, name)?;
            if !is_among(path.as_str(), kept) {
                let kind = self.rt.symlink_metadata(path.as_str());
                let kind = named(self.alloc, path.as_str(), kind)?;
                self.take_away(path.as_str(), &kind)?;
            }
        }
        Ok(all_text)
    }

    /// Takes away what stands at a path, with all below it.
    fn take_away(&mut self, path: &str, kind: &Metadata) -> Result<(), Failure> {
        if !kind.is_dir() {
            return named(self.alloc, path, self.rt.remove_file(path));
        }
        named(self.alloc, path, unlocked(self.rt, path, kind))?;
        let mut pending = Vec::new(self.alloc);
        pending.push(String::from_str(self.alloc, path)?)?;
        for _ in 0..u64::MAX {
            let Some(folder) = pending.pop() else {
                break;
            };
            self.take_folder(folder.as_str(), &mut pending)?;
        }
        Ok(())
    }

    /// Takes away a folder with its files. The folders in it are brought up, so that no path grows long, and are left to be taken
    /// away.
    fn take_folder(&mut self, folder: &str, pending: &mut Vec<String>) -> Result<(), Failure> {
        let names = names_in(self.rt, self.alloc, folder);
        let mut all_text = true;
        for name in named(self.alloc, folder, names)? {
            match std::str::from_utf8(name.as_slice()) {
                Ok(name) => self.take_name(folder, name, pending)?,
                Err(_) => all_text = false,
            }
        }
        let gone = if all_text {
            self.rt.remove_dir(folder)
        } else {
            self.rt.remove_dir_all(self.alloc, folder)
        };
        named(self.alloc, folder, gone)
    }

    fn take_name(
        &mut self,
        folder: &str,
        name: &str,
        pending: &mut Vec<String>,
    ) -> Result<(), Failure> {
        let path = joined(self.alloc, folder, name)?;
        let path = path.as_str();
        let kind = named(self.alloc, path, self.rt.symlink_metadata(path))?;
        if !kind.is_dir() {
            return named(self.alloc, path, self.rt.remove_file(path));
        }
        named(self.alloc, path, unlocked(self.rt, path, &kind))?;
        pending.push(self.brought_up(path)?)?;
        Ok(())
    }

    /// Brings a folder up into the work folder, under a name that nothing has there.
    fn brought_up(&mut self, path: &str) -> Result<String, Failure> {
        for _ in 0..u32::MAX {
            let number = self.next;
            self.next = number.wrapping_add(1);
            let name = format!(in self.alloc; "taken-{number}")?;
            let above = joined(self.alloc, self.work, name.as_str())?;
            match self.rt.rename(path, above.as_str()) {
                Ok(()) => return Ok(above),
                Err(error) if is_taken(&error) => {}
                Err(error) => return Err(Failure::at(self.alloc, path, error)),
            }
        }
        Err(Failure::at(self.alloc, path, io::Error::from(ErrorKind::AlreadyExists)))
    }
}
