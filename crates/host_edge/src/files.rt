//! Files and folders by their paths.

ghost use Rattle.std.specs.Prelude.{◌≡◌, ◌≤◌, length, IfOk, string_bytes};
ghost use Rattle.host_edge.specs.Paths.{in_folder};

use std::alloc::{AllocError, Global};
use std::fs::OpenFile;
use std::io::{ErrorKind, Read};
use std::rt::Files;
use std::{fs, io};

/// The path of a file in a folder.
pub fn joined(alloc: Global, folder: &str, name: &str) -> Result<String, AllocError>
    ensures { IfOk result (λ path. string_bytes path ≡ in_folder folder.now name.now) }
{
    let mut path = String::from_str(alloc, folder)?;
    path.push('/')?;
    path.push_str(name)?;
    Ok(path)
}

/// The path of what has this name in a folder. A name with a slash is none, and one that isn't text can't be opened.
pub fn named_in(alloc: Global, folder: &str, name: &[u8]) -> io::Result<String>
    ensures { IfOk result (λ path. string_bytes path ≡ in_folder folder.now name.now) }
{
    match std::str::from_utf8(name) {
        Ok(name) if !name.contains('/') => Ok(joined(alloc, folder, name)?),
        _ => Err(io::Error::from(ErrorKind::InvalidFilename)),
    }
}

/// Opens a regular file, or what a link to one leads to. What is no file is not opened, so that nothing waits for a writer;
/// and the file that was opened is looked at again, since another may stand there by then.
pub fn open_regular<R: Files>(rt: &R, path: &str) -> io::Result<R::File> {
    if !rt.metadata(path)?.is_file() {
        return Err(io::Error::from(ErrorKind::InvalidInput));
    }
    let file = fs::open(rt, path)?;
    if !file.metadata()?.is_file() {
        return Err(io::Error::from(ErrorKind::InvalidInput));
    }
    Ok(file)
}

/// One read, which is tried again where it was interrupted.
pub fn read_once<F: Read>(file: &mut F, into: &mut [u8]) -> io::Result<usize>
    ensures { IfOk result (λ n. n ≤ length into.new) }
{
    for _ in 0..u64::MAX {
        match file.read(into) {
            Ok(count) => return Ok(count),
            Err(error) if error.kind() == ErrorKind::Interrupted => {}
            Err(error) => return Err(error),
        }
    }
    Err(io::Error::from(ErrorKind::Interrupted))
}

/// Fills as much of the buffer as the file has bytes, and says how much.
pub fn read_up_to<F: Read>(file: &mut F, into: &mut [u8]) -> io::Result<usize>
    ensures { IfOk result (λ n. n ≤ length into.new) }
{
    let mut filled = 0;
    for _ in 0..u64::MAX {
        if filled >= into.len() {
            break;
        }
        match read_once(file, &mut into[filled..])? {
            0 => break,
            count => filled += count,
        }
    }
    Ok(filled)
}

/// The first bytes of a file.
pub fn read_start<R: Files>(rt: &R, path: &str, into: &mut [u8]) -> io::Result<usize>
    ensures { IfOk result (λ n. n ≤ length into.new) }
{
    let mut file = open_regular(rt, path)?;
    read_up_to(&mut file, into)
}

/// The names in a folder, without `.` and `..`, in no order. They are bytes and need not be text.
pub fn names_in<R: Files>(rt: &R, alloc: Global, folder: &str) -> io::Result<Vec<Vec<u8>>> {
    let mut dir = rt.open_dir(folder)?;
    let mut names = Vec::new(alloc);
    // a folder is read by whole names, so there must be room for the longest at each read
    let mut some = [0u8; 4_096];
    for _ in 0..u64::MAX {
        let count = read_once(&mut dir, &mut some)?;
        if count == 0 {
            break;
        }
        add_each(&mut names, alloc, &some[..count])?;
    }
    Ok(names)
}

/// Adds the names, each of which has a zero behind it.
fn add_each(names: &mut Vec<Vec<u8>>, alloc: Global, bytes: &[u8]) -> io::Result<()> {
    for name in bytes.split(|b| *b == 0) {
        if !name.is_empty() && name != b".".as_slice() && name != b"..".as_slice() {
            names.push(Vec::from_slice(alloc, name)?)?;
        }
    }
    Ok(())
}
