//! The files of the work folder.

use crate::failure::{Failure, named};
use crate::files::{joined, names_in};
use crate::paths::Paths;
use device_model::Part;
use std::alloc::Global;
use std::fs::{self, OpenFile, OpenOptions};
use std::io::{self, ErrorKind, Write};
use std::rt::Files;
use upd_text::Name;

/// The file of the work folder to which bytes were added last.
#[derive(Drop)]
pub struct Tail<F: Drop> {
    part: Part,
    path: Name,
    file: F,
}

/// Whether a path stays below the folder in which it is opened: no part of it is empty, `.` or `..`.
fn is_inside(path: &str) -> bool {
    path.split('/')
        .all(|part| !part.is_empty() && part != "." && part != "..")
}

/// The path of a file of a part.
fn path_in(alloc: Global, folder: &str, path: &Name) -> Result<String, Failure> {
    match std::str::from_utf8(path.bytes()) {
        Ok(path) if is_inside(path) => Ok(joined(alloc, folder, path)?),
        _ => Err(Failure::at(alloc, folder, io::Error::from(ErrorKind::InvalidFilename))),
    }
}

/// Opens a file to add bytes at its end. It is made where it isn't there, with the folders above it.
fn open_tail<R: Files>(rt: &R, path: &str) -> io::Result<R::File> {
    let mut options = OpenOptions::new();
    options.append(true).create(true);
    match options.open(rt, path) {
        Err(error) if error.kind() == ErrorKind::NotFound => {
            if let Some((above, _)) = path.rsplit_once('/') {
                fs::create_dir_all(rt, above)?;
            }
            options.open(rt, path)
        }
        opened => opened,
    }
}

fn is_at<F: Drop>(tail: &Tail<F>, part: Part, path: &Name) -> bool {
    tail.part == part && tail.path.bytes() == path.bytes()
}

/// Adds bytes at the end of a file. The file stays open for the next bytes.
pub fn append<R: Files>(
    rt: &R,
    alloc: Global,
    paths: &Paths,
    last: &mut Option<Tail<R::File>>,
    part: Part,
    path: &Name,
    bytes: &[u8],
) -> Result<(), Failure> {
    let folder = named(alloc, paths.work.as_str(), paths.part(part))?;
    let whole = path_in(alloc, folder, path)?;
    let whole = whole.as_str();
    let mut tail = match last.take() {
        Some(tail) if is_at(&tail, part, path) => tail,
        _ => Tail {
            part,
            path: path.twin(),
            file: named(alloc, whole, open_tail(rt, whole))?,
        },
    };
    named(alloc, whole, tail.file.write_all(bytes))?;
    *last = Some(tail);
    Ok(())
}

/// Brings to the disk each part that has files: its files, then their folders up to the part's own; at the end the names in the
/// work folder and those in the data folder.
pub fn sync<R: Files>(rt: &R, alloc: Global, paths: &Paths) -> Result<(), Failure> {
    for part in paths.parts.as_slice() {
        sync_part(rt, alloc, part.as_str())?;
    }
    sync_path(rt, alloc, paths.work.as_str())?;
    sync_path(rt, alloc, paths.folder.as_str())
}

fn sync_path<R: Files>(rt: &R, alloc: Global, path: &str) -> Result<(), Failure> {
    named(alloc, path, synced(rt, path))
}

fn synced<R: Files>(rt: &R, path: &str) -> io::Result<()> {
    fs::open(rt, path)?.sync_all()
}

/// What a part of the work folder holds.
#[derive(Drop)]
struct Found {
    /// Its folders, each above those in it.
    folders: Vec<String>,
    /// Its files that have bytes: one that has none stands on the disk once its folder does.
    files: Vec<String>,
    /// Whether it has a file.
    any: bool,
}

fn sync_part<R: Files>(rt: &R, alloc: Global, part: &str) -> Result<(), Failure> {
    let found = found_in(rt, alloc, part)?;
    if found.any {
        for file in found.files.as_slice() {
            sync_path(rt, alloc, file.as_str())?;
        }
        for folder in found.folders.as_slice().iter().rev() {
            sync_path(rt, alloc, folder.as_str())?;
        }
    }
    Ok(())
}

fn found_in<R: Files>(rt: &R, alloc: Global, part: &str) -> Result<Found, Failure> {
    let mut found = Found {
        folders: Vec::new(alloc),
        files: Vec::new(alloc),
        any: false,
    };
    let mut pending = Vec::new(alloc);
    pending.push(String::from_str(alloc, part)?)?;
    for _ in 0..u64::MAX {
        let Some(folder) = pending.pop() else {
            break;
        };
        look_in(rt, alloc, folder.as_str(), &mut found, &mut pending)?;
        found.folders.push(folder)?;
    }
    Ok(found)
}

/// Notes what a folder holds. A name that isn't text can't be told to the system.
fn look_in<R: Files>(
    rt: &R,
    alloc: Global,
    folder: &str,
    found: &mut Found,
    pending: &mut Vec<String>,
) -> Result<(), Failure> {
    for name in named(alloc, folder, names_in(rt, alloc, folder))? {
        let Ok(name) = std::str::from_utf8(name.as_slice()) else {
            let reason = io::Error::from(ErrorKind::InvalidFilename);
            return Err(Failure::at(alloc, folder, reason));
        };
        let path = joined(alloc, folder, name)?;
        let kind = rt.symlink_metadata(path.as_str());
        let kind = named(alloc, path.as_str(), kind)?;
        if kind.is_dir() {
            pending.push(path)?;
        } else if kind.is_file() {
            found.any = true;
            if kind.len() > 0 {
                found.files.push(path)?;
            }
        }
    }
    Ok(())
}
