//! The store as a file.

use crate::files::joined;
use crate::lock::{Lockable, hold};
use device_model::AREA;
use std::alloc::Global;
use std::fs::{OpenFile, OpenOptions};
use std::io::{ErrorKind, Seek, SeekFrom, Write};
use std::rt::{Clock, Files};
use std::{fs, io};

/// What a store that is short is filled with, so many bytes at once.
const ZEROS: [u8; 4096] = [0; 4096];

/// The store, a regular file that is open for this client alone, with at least the bytes of the area. What it lacks is written
/// as zeros. Anything else that stands there is neither opened nor written.
pub fn open_store<R: Files + Clock>(rt: &R, alloc: Global, path: &str) -> io::Result<R::File>
where
    R::File: Lockable,
{
    let mut store = open_file(rt, path)?;
    hold(rt, &store)?;
    let size = store.metadata()?.len();
    if size < u64::from(AREA) {
        grow(&mut store, size)?;
        store.sync_all()?;
    }
    // An earlier start may have made the file and failed before its name was on the disk.
    sync_name(rt, alloc, path)?;
    Ok(store)
}

/// Brings the name of a file to the disk: syncs the folder in which it stands, also where the path is a link to it.
fn sync_name<R: Files>(rt: &R, alloc: Global, path: &str) -> io::Result<()> {
    let real = rt.canonicalize(alloc, path)?;
    let Some((above, _)) = real.as_str().rsplit_once('/') else {
        return Err(io::Error::from(ErrorKind::InvalidFilename));
    };
    let above = joined(alloc, above, "")?;
    fs::open(rt, above.as_str())?.sync_all()
}

fn not_a_file() -> io::Error {
    io::Error::new(ErrorKind::InvalidInput, "it is no regular file")
}

/// Opens the file, which is made where nothing stands. It is looked at before, since to open a device may do something, and
/// after, since another may stand there by then.
fn open_file<R: Files>(rt: &R, path: &str) -> io::Result<R::File> {
    match rt.metadata(path) {
        Ok(kind) if !kind.is_file() => return Err(not_a_file()),
        _ => {}
    }
    let store = OpenOptions::new()
        .read(true)
        .write(true)
        .create(true)
        .open(rt, path)?;
    if !store.metadata()?.is_file() {
        return Err(not_a_file());
    }
    Ok(store)
}

/// Writes zeros from the file's end up to the area's end.
fn grow<F: Write + Seek>(store: &mut F, size: u64) -> io::Result<()> {
    store.seek(SeekFrom::Start(size))?;
    let mut size = size;
    for _ in 0..AREA {
        let left = u64::from(AREA).saturating_sub(size);
        if left == 0 {
            break;
        }
        let count = left.min(ZEROS.len() as u64);
        store.write_all(&ZEROS[..count as usize])?;
        size += count;
    }
    Ok(())
}
