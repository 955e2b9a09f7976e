//! A folder that a tree is written into.

use host_edge::{Failure, named};
use std::alloc::{AllocError, Global};
use std::fs::{self, OpenFile, OpenOptions};
use std::io::{self, ErrorKind, Read, Write};
use std::rt::Files;
use upd_text::Name;

/// A folder that wasn't there or was empty, and what was written into it so far. The manifest is kept back: `finish` writes it
/// last.
#[derive(Drop)]
pub struct Folder<R: Files + Drop> {
    rt: R,
    alloc: Global,
    path: String,
    /// What is to be brought to the disk: the folders, each behind those above it, and the files.
    folders: Vec<String>,
    files: Vec<String>,
    manifest: Option<Vec<u8>>,
}

/// Whether a name stands in the folder. A read of it has room for whole names, each with a zero behind it.
fn has_names<R: Files>(rt: &R, folder: &str) -> io::Result<bool> {
    let mut dir = rt.open_dir(folder)?;
    let mut some = [0u8; 4_096];
    for _ in 0..u64::MAX {
        let count = dir.read(&mut some)?;
        if count == 0 || count > some.len() {
            break;
        }
        for name in some[..count].split(|b| *b == 0) {
            if !name.is_empty() && name != b".".as_slice() && name != b"..".as_slice() {
                return Ok(true);
            }
        }
    }
    Ok(false)
}

/// Fails unless nothing stands at the path, or an empty folder.
fn see_free<R: Files>(rt: &R, path: &str) -> io::Result<()> {
    match rt.symlink_metadata(path) {
        Ok(kind) if !kind.is_dir() => Err(io::Error::from(ErrorKind::NotADirectory)),
        Ok(_) if has_names(rt, path)? => Err(io::Error::from(ErrorKind::DirectoryNotEmpty)),
        Ok(_) => Ok(()),
        Err(error) if error.kind() == ErrorKind::NotFound => Ok(()),
        Err(error) => Err(error),
    }
}

/// Makes a folder, or finds it there.
fn make_folder<R: Files>(rt: &R, path: &str) -> io::Result<()> {
    match rt.create_dir(path) {
        Err(error) if error.kind() == ErrorKind::AlreadyExists => Ok(()),
        done => done,
    }
}

/// The folder in which a path stands.
fn above(path: &str) -> &str {
    match path.trim_end_matches('/').rsplit_once('/') {
        Some(("", _)) => "/",
        Some((folder, _)) => folder,
        None => ".",
    }
}

fn sync<R: Files>(rt: &R, alloc: Global, path: &str) -> Result<(), Failure> {
    let file = named(alloc, path, fs::open(rt, path))?;
    named(alloc, path, file.sync_all())
}

impl<R: Files + Drop> Folder<R> {
    /// The folder at this path, where nothing stands or an empty folder. Nothing is made yet.
    pub fn at(rt: R, alloc: Global, path: &str) -> Result<Folder<R>, Failure> {
        named(alloc, path, see_free(&rt, path))?;
        Ok(Folder {
            rt,
            alloc,
            path: String::from_str(alloc, path)?,
            folders: Vec::new(alloc),
            files: Vec::new(alloc),
            manifest: None,
        })
    }

    fn path_of(&self, name: &str) -> Result<String, AllocError> {
        let folder = self.path.as_str();
        format!(in self.alloc; "{folder}/{name}")
    }

    /// Makes a folder of the tree, where it isn't made yet.
    fn add_folder(&mut self, path: &str) -> Result<(), Failure> {
        if !self.folders.iter().any(|made| made.as_str() == path) {
            named(self.alloc, path, make_folder(&self.rt, path))?;
            self.folders.push(String::from_str(self.alloc, path)?)?;
        }
        Ok(())
    }

    /// Makes the folders above a file of the tree.
    fn add_folders(&mut self, name: &str) -> Result<(), Failure> {
        let mut path = String::from_str(self.alloc, self.path.as_str())?;
        self.add_folder(path.as_str())?;
        if let Some((inner, _)) = name.rsplit_once('/') {
            for part in inner.split('/') {
                path.push('/')?;
                path.push_str(part)?;
                self.add_folder(path.as_str())?;
            }
        }
        Ok(())
    }

    fn write_file(&self, path: &str, bytes: &[u8]) -> Result<R::File, Failure> {
        let opened = OpenOptions::new()
            .write(true)
            .create_new(true)
            .open(&self.rt, path);
        let mut file = named(self.alloc, path, opened)?;
        named(self.alloc, path, file.write_all(bytes))?;
        Ok(file)
    }

    /// Writes a file, with the folders above it.
    fn write(&mut self, name: &str, bytes: &[u8]) -> Result<(), Failure> {
        self.add_folders(name)?;
        let path = self.path_of(name)?;
        self.write_file(path.as_str(), bytes)?;
        self.files.push(path)?;
        Ok(())
    }

    /// Writes a file, or keeps it back where it is the manifest.
    pub fn add(&mut self, path: &Name, bytes: &[u8]) -> Result<(), Failure> {
        match std::str::from_utf8(path.bytes()) {
            Ok("manifest") => self.manifest = Some(Vec::from_slice(self.alloc, bytes)?),
            Ok(name) => self.write(name, bytes)?,
            Err(_) => {
                let reason = io::Error::from(ErrorKind::InvalidFilename);
                return Err(Failure::at(self.alloc, self.path.as_str(), reason));
            }
        }
        Ok(())
    }

    /// Brings all that was written to the disk, then writes the manifest and brings it there too.
    pub fn finish(&self) -> Result<(), Failure> {
        for file in self.files.iter() {
            sync(&self.rt, self.alloc, file.as_str())?;
        }
        for folder in self.folders.iter().rev() {
            sync(&self.rt, self.alloc, folder.as_str())?;
        }
        let path = self.path_of("manifest")?;
        let Some(manifest) = &self.manifest else {
            let reason = io::Error::from(ErrorKind::InvalidInput);
            return Err(Failure::at(self.alloc, path.as_str(), reason));
        };
        let written = self.write_file(path.as_str(), manifest.as_slice())?;
        named(self.alloc, path.as_str(), written.sync_all())?;
        sync(&self.rt, self.alloc, self.path.as_str())?;
        sync(&self.rt, self.alloc, above(self.path.as_str()))
    }
}
